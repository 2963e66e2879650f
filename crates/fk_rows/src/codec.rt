//! The calls of fk_codec: plaintexts.
use crate::packet_fields::{fields, put_opened};
use crate::showing::put_outcome;
use fk_codec::{decode, encode};
use fk_row_text::{Answer, Arguments, RowFault};
use std::alloc::Global;

/// Makes the call of this name, where it is one of these.
pub(crate) fn call(
    alloc: Global,
    name: &[u8],
    arguments: &mut Arguments<'_>,
    answer: &mut Answer,
) -> bool {
    match name {
        b"decode" => put_opened(&decode(alloc, arguments.text()), answer),
        b"encode" => call_encode(alloc, arguments, answer),
        _ => return false,
    }
    true
}

fn call_encode(alloc: Global, arguments: &mut Arguments<'_>, answer: &mut Answer) {
    if let Some(fields) = fields(alloc, arguments) {
        if fields.check().is_ok() {
            put_outcome(&encode(alloc, &fields), answer);
        } else {
            arguments.refuse(RowFault::Barred);
        }
    }
}
