ghost use Rattle.std.specs.Prelude.{◌≡◌, ◌∷◌, [], false};
ghost use Rattle.fk_log.specs.Item.{line_of};
ghost use Rattle.fk_log.specs.Tally.{blank_tally};
ghost use Rattle.fk_log.specs.Writing.{Logs, output};

use crate::{LogItem, Tally, Verbosity, render};
use fk_host::Sink;
use std::marker::Model;

/// A log that is written as its lines come. The first write that fails is its last; what comes after it is still counted.
#[derive(Drop)]
pub struct LogWriter {
    verbosity: Verbosity,
    tally: Tally,
    is_broken: bool,
}

impl Model for LogWriter {
    ghost use Rattle.fk_log.specs.Writing.{LogState};

    ghost Value = { LogState };

    ghost view = { λ w. record { verbosity = w.verbosity; tally = w.tally; is_broken = w.is_broken } };
}

impl LogWriter {
    pub fn new(verbosity: Verbosity) -> Self
        ensures { result ≡ record { verbosity = verbosity; tally = blank_tally; is_broken = false } }
    {
        LogWriter {
            verbosity,
            tally: Tally::new(),
            is_broken: false,
        }
    }

    /// The tally of all lines so far, those that are not printed among them.
    pub fn tally(&self) -> Tally
        ensures { result ≡ self.now.tally }
    {
        self.tally
    }

    /// Whether a write has failed.
    pub fn is_broken(&self) -> bool
        ensures { result ≡ self.now.is_broken }
    {
        self.is_broken
    }

    /// Counts the line, and writes it where it is printed and no write has failed before.
    pub fn add<K: Sink>(&mut self, item: &LogItem<'_>, out: &mut K)
        ensures { Logs (line_of item.now ∷ []) (output self.old (K.written out.old) (K.faults out.old))
            (output self.new (K.written out.new) (K.faults out.new)) }
    {
        self.tally.count(item);
        if !self.is_broken && self.verbosity.shows(item) {
            self.is_broken = render(item, out).is_err();
        }
    }
}
