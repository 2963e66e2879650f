//! The call of fk_input: the lines of an input.
use crate::reading::number_if;
use fk_input::{LineReader, NextLine, reading_exists, reading_is_unique};
use fk_memory::MemSource;
use fk_row_text::{Answer, Arguments, RowFault};
use std::alloc::Global;

/// Makes the call of this name, where it is one of these.
pub(crate) fn call(
    alloc: Global,
    name: &[u8],
    arguments: &mut Arguments<'_>,
    answer: &mut Answer,
) -> bool {
    match name {
        b"next_lines" => call_next_lines(alloc, arguments, answer),
        _ => return false,
    }
    true
}

/// `next_lines TEXT MOST none` or `.. MOST N`: the lines of an input that gives so many bytes at most in one read, and fails at the
/// Nth; and what comes behind them.
fn call_next_lines(alloc: Global, arguments: &mut Arguments<'_>, answer: &mut Answer) {
    // Two laws about any type, called once for one.
    reading_exists::<u8>();
    reading_is_unique::<u8>();
    let text = arguments.text();
    let most = arguments.number(usize::MAX as u64) as usize;
    let fail_at = number_if(arguments);
    if most == 0 {
        arguments.refuse(RowFault::Barred);
        return;
    }
    match MemSource::in_pieces(alloc, text, most, fail_at) {
        Ok(source) => put_lines(source, text.len(), answer),
        Err(_) => arguments.refuse(RowFault::NoMemory),
    }
}

fn put_lines(source: MemSource, len: usize, answer: &mut Answer) {
    let mut source = source;
    let mut reader = LineReader::new();
    for _ in 0..=len {
        let next = reader.next(&mut source);
        if next != NextLine::Line {
            answer.name(&next);
            break;
        }
        answer.text(reader.line());
    }
}
