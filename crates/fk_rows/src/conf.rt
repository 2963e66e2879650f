//! The calls of fk_conf on files: the daemon's configuration and the client's file.
use crate::showing::{put_address_if, put_bytes_if, put_name_if, put_number_if, put_pairs};
use fk_base::{FILE_LIMIT, NoMemory};
use fk_conf::{Conf, ConfErr, RcFile, RcStanza, conf_fault_name, read_conf, read_rc};
use fk_row_text::{Answer, Arguments, RowFault};
use std::alloc::Global;

/// Makes the call of this name, where it is one of these.
pub(crate) fn call(
    alloc: Global,
    name: &[u8],
    arguments: &mut Arguments<'_>,
    answer: &mut Answer,
) -> bool {
    match name {
        b"read_conf" => call_read_conf(arguments, answer),
        b"read_rc" => call_read_rc(alloc, arguments, answer),
        b"rc_stanza" => call_rc_stanza(alloc, arguments, answer),
        _ => return false,
    }
    true
}

fn call_read_conf(arguments: &mut Arguments<'_>, answer: &mut Answer) {
    let text = arguments.text();
    if text.len() > FILE_LIMIT {
        arguments.refuse(RowFault::Barred);
        return;
    }
    match read_conf(text) {
        Ok(conf) => put_conf(&conf, answer),
        Err(err) => put_err(err, answer),
    }
}

fn put_conf(conf: &Conf, answer: &mut Answer) {
    answer.word(b"age");
    answer.number(u64::from(conf.age));
    answer.word(b"port");
    answer.number(u64::from(conf.port));
    answer.word(b"live");
    answer.number(u64::from(conf.live));
    answer.word(b"room");
    answer.number(conf.room);
    answer.word(b"keep");
    answer.number(u64::from(conf.keep));
}

fn call_read_rc(alloc: Global, arguments: &mut Arguments<'_>, answer: &mut Answer) {
    let text = arguments.text();
    match client_file(alloc, text, arguments) {
        Ok(file) => answer.number(file.count() as u64),
        Err(err) => put_err(err, answer),
    }
}

/// Adds the line of a fault and the name of what is wrong with it, as the programs tell it.
fn put_err(err: ConfErr, answer: &mut Answer) {
    match err {
        ConfErr::Fault { line, what } => {
            answer.number(u64::from(line));
            answer.word(conf_fault_name(what));
        }
        ConfErr::NoMemory => answer.name(&NoMemory),
    }
}

/// What a text is as a client's file. A text that is too long for one is refused.
fn client_file(
    alloc: Global,
    text: &[u8],
    arguments: &mut Arguments<'_>,
) -> Result<RcFile, ConfErr> {
    if text.len() > FILE_LIMIT {
        arguments.refuse(RowFault::Barred);
        return Err(ConfErr::NoMemory);
    }
    read_rc(alloc, text)
}

/// The client's file that a text is.
pub(crate) fn good_client_file(
    alloc: Global,
    text: &[u8],
    arguments: &mut Arguments<'_>,
) -> Option<RcFile> {
    match client_file(alloc, text, arguments) {
        Ok(file) => Some(file),
        Err(_) => {
            arguments.refuse(RowFault::Barred);
            None
        }
    }
}

/// `rc_stanza N TEXT`: what the stanza of this number, from 1, sets.
fn call_rc_stanza(alloc: Global, arguments: &mut Arguments<'_>, answer: &mut Answer) {
    let number = arguments.number(u32::MAX as u64);
    let text = arguments.text();
    let Some(file) = good_client_file(alloc, text, arguments) else {
        return;
    };
    if number == 0 || number > file.count() as u64 {
        arguments.refuse(RowFault::Barred);
        return;
    }
    put_rc_stanza(file.get(number as usize - 1), answer);
}

fn put_rc_stanza(stanza: &RcStanza, answer: &mut Answer) {
    answer.number(u64::from(stanza.line));
    answer.text(stanza.name.as_slice());
    put_server(stanza, answer);
    put_secrets(stanza, answer);
}

fn put_server(stanza: &RcStanza, answer: &mut Answer) {
    answer.word(b"server");
    put_bytes_if(stanza.server.as_ref(), answer);
    answer.word(b"port");
    put_number_if(stanza.port.map(u64::from), answer);
    answer.word(b"access");
    match stanza.pairs.as_ref() {
        Some(pairs) => put_pairs(pairs.as_slice(), answer),
        None => answer.word(b"none"),
    }
    answer.word(b"allow");
    put_address_if(stanza.allow, answer);
    answer.word(b"timeout");
    put_number_if(stanza.timeout.map(u64::from), answer);
}

fn put_secrets(stanza: &RcStanza, answer: &mut Answer) {
    answer.word(b"key");
    put_bytes_if(stanza.key.as_ref(), answer);
    answer.word(b"hmac");
    put_name_if(stanza.mac_kind, answer);
    put_bytes_if(stanza.mac_key.as_ref(), answer);
    answer.word(b"digest");
    put_name_if(stanza.kind, answer);
    answer.word(b"user");
    put_bytes_if(stanza.user.as_ref(), answer);
}
