//! The calls of fk_values: what stands behind a name of a file.
use crate::showing::{put_bytes_if, put_name_if, put_net, put_number_if, put_pairs};
use fk_base::{Bytes, NoMemory};
use fk_lines::Line;
use fk_row_text::{Answer, Arguments};
use fk_values::{
    Items, find_net, is_base64_key, is_host, is_key, is_unbroken, read_flag, read_hash_name,
    read_number, read_pairs, take_base64_key, take_key, take_key_of,
};
use std::alloc::Global;

/// Makes the call of this name, where it is one of these.
pub(crate) fn call(
    alloc: Global,
    name: &[u8],
    arguments: &mut Arguments<'_>,
    answer: &mut Answer,
) -> bool {
    call_key(alloc, name, arguments, answer) || call_value(name, arguments, answer)
}

fn call_key(
    alloc: Global,
    name: &[u8],
    arguments: &mut Arguments<'_>,
    answer: &mut Answer,
) -> bool {
    match name {
        b"is_key" => answer.flag(is_key(arguments.text())),
        b"is_base64_key" => answer.flag(is_base64_key(arguments.text())),
        b"take_key" => put_key(&take_key(alloc, arguments.text()), answer),
        b"take_base64_key" => put_key(&take_base64_key(alloc, arguments.text()), answer),
        b"take_key_of" => call_take_key_of(alloc, arguments, answer),
        _ => return false,
    }
    true
}

/// `take_key_of NAME VALUE WORD`.
fn call_take_key_of(alloc: Global, arguments: &mut Arguments<'_>, answer: &mut Answer) {
    let line = Line {
        number: 1,
        name: arguments.text(),
        value: arguments.text(),
    };
    put_key(&take_key_of(alloc, line, arguments.text()), answer);
}

fn put_key(taken: &Result<Option<Bytes>, NoMemory>, answer: &mut Answer) {
    match taken {
        Ok(key) => put_bytes_if(key.as_ref(), answer),
        Err(fault) => answer.name(fault),
    }
}

fn call_value(name: &[u8], arguments: &mut Arguments<'_>, answer: &mut Answer) -> bool {
    match name {
        b"read_number" => call_read_number(arguments, answer),
        b"read_flag" => match read_flag(arguments.text()) {
            Some(flag) => answer.flag(flag),
            None => answer.word(b"none"),
        },
        b"read_hash_name" => put_name_if(read_hash_name(arguments.text()), answer),
        b"is_host" => answer.flag(is_host(arguments.text())),
        b"is_unbroken" => answer.flag(is_unbroken(arguments.text())),
        b"read_pairs" => match read_pairs(arguments.text()) {
            Some(pairs) => put_pairs(pairs.as_slice(), answer),
            None => answer.word(b"none"),
        },
        b"find_net" => match find_net(arguments.text()) {
            Some(net) => put_net(net, answer),
            None => answer.word(b"none"),
        },
        b"items" => call_items(arguments, answer),
        _ => return false,
    }
    true
}

/// `read_number TEXT LEAST MOST`.
fn call_read_number(arguments: &mut Arguments<'_>, answer: &mut Answer) {
    let text = arguments.text();
    let least = arguments.number(u64::MAX);
    put_number_if(read_number(text, least, arguments.number(u64::MAX)), answer);
}

/// `items TEXT`: the items of a list.
fn call_items(arguments: &mut Arguments<'_>, answer: &mut Answer) {
    let list = arguments.text();
    let mut items = Items::new(list);
    for _ in 0..=list.len() {
        let Some(item) = items.next() else {
            break;
        };
        answer.text(item);
    }
}
