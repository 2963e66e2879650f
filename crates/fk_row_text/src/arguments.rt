ghost use Rattle.std.specs.Prelude.{◌≤◌};

use crate::RowFault;
use crate::scanner::number_of;
use crate::term::Term;
use fk_base::Words;
use std::alloc::Global;

/// The arguments of a row that are left. A call takes its own, one after the other, and none may be left behind it.
///
/// Where one is missing or has another form, an empty text or 0 stands in its place, and the row fails when its call is made. So a call
/// takes its arguments without a branch for each.
#[derive(Drop)]
pub struct Arguments<'a> {
    terms: &'a [Term],
    fault: Option<RowFault>,
}

impl<'a> Arguments<'a> {
    pub(crate) fn new(terms: &'a [Term]) -> Self {
        Arguments { terms, fault: None }
    }

    /// The first reason for which the row fails, when its call is made.
    pub(crate) fn fault(&self) -> Option<RowFault> {
        if self.fault.is_none() && self.has_more() {
            return Some(RowFault::Further);
        }
        self.fault
    }

    /// Whether one is left.
    pub fn has_more(&self) -> bool {
        !self.terms.is_empty()
    }

    /// Lets the row fail for this reason, unless it does for an earlier one.
    pub fn refuse(&mut self, fault: RowFault) {
        if self.fault.is_none() {
            self.fault = Some(fault);
        }
    }

    /// Takes a text.
    pub fn text(&mut self) -> &'a [u8] {
        match self.take() {
            Some(Term::Text(text)) => text.as_slice(),
            Some(Term::Word(_)) => self.nothing(RowFault::NoText),
            None => self.nothing(RowFault::Missing),
        }
    }

    /// Takes a word.
    pub fn word(&mut self) -> &'a [u8] {
        match self.take() {
            Some(Term::Word(word)) => word.as_slice(),
            Some(Term::Text(_)) => self.nothing(RowFault::NoWord),
            None => self.nothing(RowFault::Missing),
        }
    }

    /// Takes a decimal number up to the greatest that serves.
    pub fn number(&mut self, most: u64) -> u64
        ensures { result ≤ most }
    {
        match number_of(self.word(), most) {
            Ok(number) => number,
            Err(fault) => {
                self.refuse(fault);
                0
            }
        }
    }

    /// Takes this word where it comes next.
    pub fn takes(&mut self, word: &[u8]) -> bool {
        match self.terms.split_first() {
            Some((Term::Word(first), rest)) if first.as_slice() == word => {
                self.terms = rest;
                true
            }
            _ => false,
        }
    }

    /// Takes all that are left, words and texts, as the words of a command line.
    pub fn words(&mut self, alloc: Global) -> Words {
        let mut words = Words::new(alloc);
        for term in self.terms {
            if words.push(term.bytes()).is_err() {
                self.refuse(RowFault::NoMemory);
            }
        }
        self.terms = &[];
        words
    }

    fn take(&mut self) -> Option<&'a Term> {
        let (first, rest) = self.terms.split_first()?;
        self.terms = rest;
        Some(first)
    }

    fn nothing(&mut self, fault: RowFault) -> &'a [u8] {
        self.refuse(fault);
        b""
    }
}
