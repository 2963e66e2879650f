//! The calls of fk_base: numbers, moments, addresses, nets, pairs and lists.
use crate::reading::{address, kind, pair, pairs};
use crate::showing::{
    put_address, put_address_if, put_net, put_number_if, put_outcome, put_pair, put_pair_if,
    put_words,
};
use fk_base::{
    Bytes, Moment, NoMemory, Pair, Pairs, Parts, Proto, find_ip, find_number, find_pair,
    put_decimal, put_ip, put_pairs, read_decimal, read_ip, read_moment, read_net, read_pair,
};
use fk_row_text::{Answer, Arguments, RowFault};
use std::alloc::Global;

/// Makes the call of this name, where it is one of these.
pub(crate) fn call(
    alloc: Global,
    name: &[u8],
    arguments: &mut Arguments<'_>,
    answer: &mut Answer,
) -> bool {
    call_reader(name, arguments, answer)
        || call_finder(name, arguments, answer)
        || call_of_list(alloc, name, arguments, answer)
}

fn call_reader(name: &[u8], arguments: &mut Arguments<'_>, answer: &mut Answer) -> bool {
    match name {
        b"read_decimal" => match read_decimal(arguments.text()) {
            Ok(number) => answer.number(number),
            Err(fault) => answer.name(&fault),
        },
        b"read_moment" => match read_moment(arguments.text()) {
            Ok(moment) => answer.number(moment.get()),
            Err(fault) => answer.name(&fault),
        },
        b"read_ip" => match read_ip(arguments.text()) {
            Ok(ip) => put_address(ip, answer),
            Err(fault) => answer.name(&fault),
        },
        b"read_net" => match read_net(arguments.text()) {
            Ok(net) => put_net(net, answer),
            Err(fault) => answer.name(&fault),
        },
        b"read_pair" => match read_pair(arguments.text()) {
            Ok(pair) => put_pair(pair, answer),
            Err(fault) => answer.name(&fault),
        },
        _ => return false,
    }
    true
}

fn call_finder(name: &[u8], arguments: &mut Arguments<'_>, answer: &mut Answer) -> bool {
    match name {
        b"find_number" => {
            let text = arguments.text();
            put_number_if(find_number(text, arguments.number(u64::MAX)), answer);
        }
        b"find_ip" => put_address_if(find_ip(arguments.text()), answer),
        b"find_pair" => put_pair_if(find_pair(arguments.text()), answer),
        b"moment" => match Moment::new(arguments.number(u64::MAX)) {
            Some(moment) => answer.number(moment.get()),
            None => answer.word(b"none"),
        },
        b"covers" => match read_net(arguments.text()) {
            Ok(net) => answer.flag(net.covers(address(arguments))),
            Err(_) => arguments.refuse(RowFault::NoText),
        },
        b"text_len" => answer.number(kind(arguments).text_len() as u64),
        _ => return false,
    }
    true
}

fn call_of_list(
    alloc: Global,
    name: &[u8],
    arguments: &mut Arguments<'_>,
    answer: &mut Answer,
) -> bool {
    match name {
        b"put_decimal" | b"put_ip" | b"put_pair" | b"put_pairs" | b"append" => {
            call_writer(alloc, name, arguments, answer);
        }
        b"append_in_room" => {
            let first = arguments.text();
            put_outcome(&in_room(alloc, first, arguments.text()), answer);
        }
        b"words" => call_words(alloc, arguments, answer),
        b"parts" => call_parts(arguments, answer),
        b"pairs" => call_pairs(arguments, answer),
        _ => return false,
    }
    true
}

/// Calls that add to a text: their first argument is what stands there.
fn call_writer(alloc: Global, name: &[u8], arguments: &mut Arguments<'_>, answer: &mut Answer) {
    let mut out = Bytes::new(alloc);
    let begun = out.append(arguments.text());
    let written = match name {
        b"put_decimal" => put_decimal(arguments.number(u64::MAX), &mut out),
        b"put_ip" => put_ip(address(arguments), &mut out),
        b"put_pair" => put_pair_of(arguments, &mut out),
        b"put_pairs" => put_pairs_of(arguments, &mut out),
        _ => out.append(arguments.text()),
    };
    if begun.is_err() || written.is_err() {
        arguments.refuse(RowFault::NoMemory);
    }
    answer.text(out.as_slice());
}

fn put_pair_of(arguments: &mut Arguments<'_>, out: &mut Bytes) -> Result<(), NoMemory> {
    match pair(arguments) {
        Some(pair) => fk_base::put_pair(pair, out),
        None => Ok(()),
    }
}

fn put_pairs_of(arguments: &mut Arguments<'_>, out: &mut Bytes) -> Result<(), NoMemory> {
    match pairs(arguments) {
        Some(pairs) => put_pairs(&pairs, out),
        None => Ok(()),
    }
}

/// Two texts, joined in a list with room for both that held something else before.
fn in_room(alloc: Global, first: &[u8], second: &[u8]) -> Result<Bytes, NoMemory> {
    let mut out = Bytes::with_room(alloc, first.len().saturating_add(second.len()))?;
    out.append(b"else")?;
    out.clear();
    out.append(first)?;
    out.append(second)?;
    Ok(out)
}

fn call_words(alloc: Global, arguments: &mut Arguments<'_>, answer: &mut Answer) {
    let words = arguments.words(alloc);
    answer.number(words.count() as u64);
    put_words(&words, answer);
}

/// `parts TEXT SEPARATOR`, the separator as a text of one byte.
fn call_parts(arguments: &mut Arguments<'_>, answer: &mut Answer) {
    let text = arguments.text();
    let [separator] = arguments.text() else {
        arguments.refuse(RowFault::NoText);
        return;
    };
    let mut parts = Parts::new(text, *separator);
    for _ in 0..=text.len() {
        let Some(part) = parts.next() else {
            break;
        };
        answer.text(part);
    }
}

/// `pairs N`: how many pairs a copy of a list has to which so many were added.
fn call_pairs(arguments: &mut Arguments<'_>, answer: &mut Answer) {
    let count = arguments.number(u64::MAX);
    let Some(pair) = Pair::new(Proto::Udp, 53) else {
        return;
    };
    let mut pairs = Pairs::one(pair);
    for _ in 1..count {
        if let Err(full) = pairs.push(pair) {
            answer.name(&full);
            return;
        }
    }
    put_copied_count(&pairs, answer);
}

fn put_copied_count(pairs: &Pairs, answer: &mut Answer) {
    match pairs.clone() {
        Ok(copied) => answer.number(copied.count() as u64),
        Err(fault) => answer.name(&fault),
    }
}
