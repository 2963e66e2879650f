//! The calls of fk_mac: hashes and HMAC.
use crate::reading::kind;
use fk_base::Bytes;
use fk_mac::{MacBuf, hash, mac, packet_digest, verify};
use fk_row_text::{Answer, Arguments, RowFault};
use std::alloc::Global;

/// Makes the call of this name, where it is one of these.
pub(crate) fn call(
    alloc: Global,
    name: &[u8],
    arguments: &mut Arguments<'_>,
    answer: &mut Answer,
) -> bool {
    match name {
        b"hash" => answer.text(hashed(arguments).as_slice()),
        b"hash_text" => put_text(alloc, &hashed(arguments), arguments, answer),
        b"packet_digest" => answer.text(&packet_digest(arguments.text()).0),
        b"mac" => answer.text(authenticated(arguments).as_slice()),
        b"mac_text" => put_text(alloc, &authenticated(arguments), arguments, answer),
        b"verify" => call_verify(arguments, answer),
        _ => return false,
    }
    true
}

fn hashed(arguments: &mut Arguments<'_>) -> MacBuf {
    let mut out = MacBuf::new();
    let kind = kind(arguments);
    hash(kind, arguments.text(), &mut out);
    out
}

fn authenticated(arguments: &mut Arguments<'_>) -> MacBuf {
    let mut out = MacBuf::new();
    let (kind, key) = (kind(arguments), arguments.text());
    let (head, tail) = (arguments.text(), arguments.text());
    mac(kind, key, head, tail, &mut out);
    out
}

fn put_text(alloc: Global, code: &MacBuf, arguments: &mut Arguments<'_>, answer: &mut Answer) {
    let mut text = Bytes::new(alloc);
    if code.put_text(&mut text).is_err() {
        arguments.refuse(RowFault::NoMemory);
    }
    answer.text(text.as_slice());
}

/// `verify KIND KEY HEAD TAIL CODE`.
fn call_verify(arguments: &mut Arguments<'_>, answer: &mut Answer) {
    let (kind, key) = (kind(arguments), arguments.text());
    let (head, tail) = (arguments.text(), arguments.text());
    answer.flag(verify(kind, key, head, tail, arguments.text()));
}
