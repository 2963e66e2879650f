ghost use Rattle.std.specs.Prelude.{◌≡◌};
ghost use Rattle.fk_log.specs.Item.{line_of};
ghost use Rattle.fk_log.specs.Shown.{begins_turn, shows, tells_progress};

use crate::LogItem;

/// Which lines a log prints.
#[derive(Clone, Copy, Debug, PartialEq, Eq)]
pub enum Verbosity {
    /// Only how the run ended.
    Quiet,
    /// All but the beginnings of turns.
    Normal,
    /// All.
    Verbose,
}

impl Verbosity {
    pub fn shows(self, item: &LogItem<'_>) -> bool
        ensures { result ≡ shows self (line_of item.now) }
    {
        match self {
            Verbosity::Quiet => !tells_progress(item),
            Verbosity::Normal => !begins_turn(item),
            Verbosity::Verbose => true,
        }
    }
}

fn begins_turn(item: &LogItem<'_>) -> bool
    ensures { result ≡ begins_turn (line_of item.now) }
{
    matches!(item, LogItem::Turn { .. })
}

fn tells_progress(item: &LogItem<'_>) -> bool
    ensures { result ≡ tells_progress (line_of item.now) }
{
    matches!(
        item,
        LogItem::Ready { .. }
            | LogItem::Turn { .. }
            | LogItem::Ended { .. }
            | LogItem::PollFailed { .. }
            | LogItem::Settled { .. }
            | LogItem::Refused { .. }
            | LogItem::Granted { .. }
            | LogItem::Opened { .. }
            | LogItem::Closed { .. }
    )
}
