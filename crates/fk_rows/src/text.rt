//! The calls of fk_text: base64.
use crate::showing::put_outcome;
use fk_row_text::{Answer, Arguments, RowFault};
use fk_text::{first_bad_byte, is_text_of, put_text, take_into, take_short, take_text};
use std::alloc::Global;

/// Makes the call of this name, where it is one of these.
pub(crate) fn call(
    alloc: Global,
    name: &[u8],
    arguments: &mut Arguments<'_>,
    answer: &mut Answer,
) -> bool {
    match name {
        b"put_text" => put_outcome(&put_text(alloc, arguments.text()), answer),
        b"take_text" => put_outcome(&take_text(alloc, arguments.text()), answer),
        b"take_short" => call_take_short(arguments, answer),
        b"take_into" => call_take_into(arguments, answer),
        b"is_text_of" => call_is_text_of(arguments, answer),
        b"first_bad_byte" => call_first_bad_byte(arguments, answer),
        _ => return false,
    }
    true
}

fn call_take_short(arguments: &mut Arguments<'_>, answer: &mut Answer) {
    let text = arguments.text();
    if text.len() > 256 {
        arguments.refuse(RowFault::Barred);
        return;
    }
    match take_short(text) {
        Some(bytes) => answer.text(bytes.as_slice()),
        None => answer.word(b"none"),
    }
}

fn call_take_into(arguments: &mut Arguments<'_>, answer: &mut Answer) {
    let text = arguments.text();
    let mut room = [0; 192];
    if text.len() > 256 {
        arguments.refuse(RowFault::Barred);
        return;
    }
    match take_into(text, &mut room) {
        Some(len) => answer.text(&room[..len]),
        None => answer.word(b"none"),
    }
}

fn call_is_text_of(arguments: &mut Arguments<'_>, answer: &mut Answer) {
    let text = arguments.text();
    let bytes = arguments.text();
    if bytes.len() > 64 {
        arguments.refuse(RowFault::Barred);
        return;
    }
    answer.flag(is_text_of(text, bytes));
}

fn call_first_bad_byte(arguments: &mut Arguments<'_>, answer: &mut Answer) {
    match first_bad_byte(arguments.text()) {
        Some(place) => answer.number(place as u64),
        None => answer.word(b"none"),
    }
}
