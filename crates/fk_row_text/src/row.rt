use crate::names::Names;
use crate::piece::{begins_text, read_text};
use crate::scanner::Scanner;
use crate::term::{Term, read_term};
use crate::{Answer, RowFault};
use fk_base::Bytes;
use std::alloc::Global;

/// A call, its arguments and the answer that is wanted.
#[derive(Drop)]
pub(crate) struct Row<'a> {
    pub(crate) call: &'a [u8],
    pub(crate) arguments: Vec<Term>,
    pub(crate) wanted: Answer,
}

/// Reads a row `CALL ARGUMENT .. = ANSWER ..`. Without an answer none is wanted.
pub(crate) fn read_row<'a>(
    alloc: Global,
    text: &'a [u8],
    names: &Names,
) -> Result<Row<'a>, RowFault> {
    let mut scanner = Scanner::new(text);
    let call = scanner.take_word();
    let arguments = read_arguments(alloc, &mut scanner, names)?;
    let mut wanted = Answer::new(alloc);
    for _ in 0..scanner.len() {
        scanner.skip_blanks();
        if scanner.len() == 0 {
            break;
        }
        read_term(alloc, &mut scanner, names)?.put(&mut wanted);
    }
    Ok(Row {
        call,
        arguments,
        wanted,
    })
}

/// Reads the terms before the equals sign or the end of the row, and takes that sign.
fn read_arguments(
    alloc: Global,
    scanner: &mut Scanner<'_>,
    names: &Names,
) -> Result<Vec<Term>, RowFault> {
    let mut arguments = Vec::new(alloc);
    for _ in 0..scanner.len() {
        scanner.skip_blanks();
        if scanner.len() == 0 || scanner.takes_sign(b'=') {
            break;
        }
        let term = read_term(alloc, scanner, names)?;
        if arguments.push(term).is_err() {
            return Err(RowFault::NoMemory);
        }
    }
    Ok(arguments)
}

/// Reads a definition `let NAME = TEXT`, behind its first word, and keeps it.
pub(crate) fn read_definition(
    alloc: Global,
    text: &[u8],
    names: &mut Names,
) -> Result<(), RowFault> {
    let mut scanner = Scanner::new(text);
    let name = Bytes::copy(alloc, scanner.take_name())?;
    scanner.skip_blanks();
    if name.as_slice().is_empty() || !scanner.takes_sign(b'=') {
        return Err(RowFault::BadDefinition);
    }
    scanner.skip_blanks();
    if !begins_text(&scanner) {
        return Err(RowFault::BadDefinition);
    }
    let text = read_text(alloc, &mut scanner, names)?;
    if scanner.len() > 0 {
        return Err(RowFault::BadDefinition);
    }
    names.add(name, text)
}
