//! The calls of fk_fields: what a packet says, and its message.
use crate::packet_fields::fields;
use crate::reading::{address, bytes, pairs};
use crate::showing::{put_address, put_check, put_outcome, put_pairs};
use fk_fields::{Rand, is_user, is_version, put_message, read_message};
use fk_row_text::{Answer, Arguments};
use std::alloc::Global;

/// Makes the call of this name, where it is one of these.
pub(crate) fn call(
    alloc: Global,
    name: &[u8],
    arguments: &mut Arguments<'_>,
    answer: &mut Answer,
) -> bool {
    match name {
        b"read_message" => call_read_message(arguments, answer),
        b"put_message" => call_put_message(alloc, arguments, answer),
        b"check" => call_check(alloc, arguments, answer),
        b"is_user" => answer.flag(is_user(arguments.text())),
        b"is_version" => answer.flag(is_version(arguments.text())),
        b"read_rand" => call_read_rand(arguments, answer),
        b"rand_from_bytes" => answer.text(&Rand::from_bytes(bytes(arguments)).digits()),
        _ => return false,
    }
    true
}

fn call_read_message(arguments: &mut Arguments<'_>, answer: &mut Answer) {
    match read_message(arguments.text()) {
        Ok((ip, pairs)) => {
            put_address(ip, answer);
            put_pairs(pairs.as_slice(), answer);
        }
        Err(fault) => answer.name(&fault),
    }
}

fn call_put_message(alloc: Global, arguments: &mut Arguments<'_>, answer: &mut Answer) {
    let ip = address(arguments);
    if let Some(pairs) = pairs(arguments) {
        put_outcome(&put_message(alloc, ip, &pairs), answer);
    }
}

fn call_check(alloc: Global, arguments: &mut Arguments<'_>, answer: &mut Answer) {
    if let Some(fields) = fields(alloc, arguments) {
        put_check(&fields.check(), answer);
    }
}

fn call_read_rand(arguments: &mut Arguments<'_>, answer: &mut Answer) {
    match Rand::read(arguments.text()) {
        Some(rand) => answer.text(&rand.digits()),
        None => answer.word(b"none"),
    }
}
