//! The calls of fk_access: access files.
use crate::showing::{put_bytes_if, put_net, put_number_if, put_pairs};
use fk_access::{Access, AccessErr, PairList, Sources, Stanza, TimedKeys, read_access};
use fk_base::{FILE_LIMIT, NoMemory};
use fk_row_text::{Answer, Arguments, RowFault};
use std::alloc::Global;

/// Makes the call of this name, where it is one of these.
pub(crate) fn call(
    alloc: Global,
    name: &[u8],
    arguments: &mut Arguments<'_>,
    answer: &mut Answer,
) -> bool {
    match name {
        b"read_access" => call_read_access(alloc, arguments, answer),
        b"stanza" => call_stanza(alloc, arguments, answer),
        _ => return false,
    }
    true
}

fn call_read_access(alloc: Global, arguments: &mut Arguments<'_>, answer: &mut Answer) {
    match access(alloc, arguments) {
        Ok(access) => answer.number(access.count() as u64),
        Err(AccessErr::Fault { line, what }) => {
            answer.number(u64::from(line));
            answer.name(&what);
        }
        Err(AccessErr::NoMemory) => answer.name(&NoMemory),
    }
}

/// What the next text is as an access file. A text that is too long for one is refused.
fn access(alloc: Global, arguments: &mut Arguments<'_>) -> Result<Access, AccessErr> {
    let text = arguments.text();
    if text.len() > FILE_LIMIT {
        arguments.refuse(RowFault::Barred);
        return Err(AccessErr::NoMemory);
    }
    read_access(alloc, text)
}

/// The access file that the next text is.
pub(crate) fn good_access(alloc: Global, arguments: &mut Arguments<'_>) -> Option<Access> {
    match access(alloc, arguments) {
        Ok(access) => Some(access),
        Err(_) => {
            arguments.refuse(RowFault::Barred);
            None
        }
    }
}

/// `stanza N TEXT`: what the stanza of this number, from 1, says.
fn call_stanza(alloc: Global, arguments: &mut Arguments<'_>, answer: &mut Answer) {
    let number = arguments.number(u32::MAX as u64);
    let Some(access) = good_access(alloc, arguments) else {
        return;
    };
    if number == 0 || number > access.count() as u64 {
        arguments.refuse(RowFault::Barred);
        return;
    }
    put_stanza(access.get(number as usize - 1), answer);
}

fn put_stanza(stanza: &Stanza, answer: &mut Answer) {
    answer.word(b"line");
    answer.number(u64::from(stanza.line));
    answer.word(b"sources");
    put_sources(&stanza.sources, answer);
    answer.word(b"allowed");
    put_list(stanza.allowed.as_ref(), answer);
    answer.word(b"barred");
    put_list(stanza.barred.as_ref(), answer);
    put_secrets(stanza, answer);
    answer.word(b"need_source");
    answer.flag(stanza.need_source);
    answer.word(b"expire");
    put_number_if(stanza.expire, answer);
    answer.word(b"timer");
    answer.number(u64::from(stanza.timer));
}

fn put_sources(sources: &Sources, answer: &mut Answer) {
    match sources {
        Sources::Any => answer.word(b"any"),
        Sources::Nets(nets) => {
            for net in nets.as_slice() {
                put_net(*net, answer);
            }
        }
    }
}

fn put_list(list: Option<&PairList>, answer: &mut Answer) {
    match list {
        Some(list) => put_pairs(list.as_slice(), answer),
        None => answer.word(b"none"),
    }
}

fn put_secrets(stanza: &Stanza, answer: &mut Answer) {
    for at in 0..stanza.ring.count() {
        put_timed_keys(stanza.ring.get(at), answer);
    }
    answer.word(b"user");
    put_bytes_if(stanza.user.as_ref(), answer);
}

/// Adds a pair of keys, and where it has one its last moment.
fn put_timed_keys(timed: &TimedKeys, answer: &mut Answer) {
    let keys = timed.keys.keys();
    answer.word(b"key");
    answer.text(keys.key.as_slice());
    answer.word(b"hmac");
    answer.name(&keys.kind);
    answer.text(keys.mac_key.as_slice());
    if let Some(until) = timed.until {
        answer.word(b"until");
        answer.number(until);
    }
}
