ghost use Rattle.std.specs.Prelude.{◌≡◌, [], ◌∷◌};
ghost use Rattle.fk_log.specs.Item.{line_of};
ghost use Rattle.fk_log.specs.Tally.{blank_tally, counted_on, tallied};

use crate::LogItem;

/// How many lines of four kinds a log has, each at most 18446744073709551615.
#[derive(Clone, Copy, Debug, PartialEq, Eq)]
pub struct Tally {
    /// Opens that began.
    pub opens: u64,
    /// Closes that began.
    pub closes: u64,
    pub settled: u64,
    pub refused: u64,
}

impl Tally {
    pub fn new() -> Self
        ensures { result ≡ blank_tally }
    {
        Tally {
            opens: 0,
            closes: 0,
            settled: 0,
            refused: 0,
        }
    }

    /// Counts one line more.
    pub fn count(&mut self, item: &LogItem<'_>)
        ensures { self.new ≡ tallied self.old (line_of item.now ∷ []) }
    {
        match item {
            LogItem::Opened { begun: true, .. } => self.opens = self.opens.saturating_add(1),
            LogItem::Closed { begun: true, .. } => self.closes = self.closes.saturating_add(1),
            LogItem::Settled { .. } => self.settled = self.settled.saturating_add(1),
            LogItem::Refused { .. } => self.refused = self.refused.saturating_add(1),
            _ => {}
        }
    }
}
