use crate::names::Names;
use crate::piece::{begins_text, read_text};
use crate::scanner::Scanner;
use crate::{Answer, RowFault};
use fk_base::Bytes;
use std::alloc::Global;

/// A part of a row: a word as it stands, or a text.
#[derive(Drop)]
pub(crate) enum Term {
    Word(Bytes),
    Text(Bytes),
}

impl Term {
    /// Its bytes, of whichever form.
    pub(crate) fn bytes(&self) -> &[u8] {
        match self {
            Term::Word(bytes) | Term::Text(bytes) => bytes.as_slice(),
        }
    }

    /// Adds it to an answer, in the form in which answers are compared.
    pub(crate) fn put(&self, answer: &mut Answer) {
        match self {
            Term::Word(word) => answer.word(word.as_slice()),
            Term::Text(text) => answer.text(text.as_slice()),
        }
    }
}

/// Reads the term that comes next.
pub(crate) fn read_term(
    alloc: Global,
    scanner: &mut Scanner<'_>,
    names: &Names,
) -> Result<Term, RowFault> {
    if begins_text(scanner) {
        Ok(Term::Text(read_text(alloc, scanner, names)?))
    } else {
        Ok(Term::Word(Bytes::copy(alloc, scanner.take_word())?))
    }
}
