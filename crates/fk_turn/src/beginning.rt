//! The lines of the ends that the polls of a turn found.
ghost use Rattle.std.specs.Prelude.{◌≡◌, map};
ghost use Rattle.fk_log.specs.Writing.{Logs, output};
ghost use Rattle.fk_log.specs.Item.{line_of};
ghost use Rattle.fk_turn.specs.Parts.{end_line};

use fk_base::Moment;
use fk_child::{EndItem, PollEnd};
use fk_host::Sink;
use fk_log::{LogItem, LogWriter};

/// Adds a line for each end and for each poll that failed, in their order.
pub(crate) fn tell_ends<K: Sink>(ends: &[EndItem], moment: Moment, log: &mut LogWriter, out: &mut K)
    ensures { Logs (map (end_line moment) ends.now) (output log.old (K.written out.old) (K.faults out.old))
        (output log.new (K.written out.new) (K.faults out.new)) }
{
    for end in ends {
        log.add(&item_of_end(moment, *end), out);
    }
}

fn item_of_end<'a>(moment: Moment, end: EndItem) -> LogItem<'a>
    ensures { line_of result ≡ end_line moment end }
{
    match end.end {
        PollEnd::Good => LogItem::Ended {
            moment,
            purpose: end.purpose,
            good: true,
        },
        PollEnd::Bad => LogItem::Ended {
            moment,
            purpose: end.purpose,
            good: false,
        },
        PollEnd::Failed => LogItem::PollFailed {
            moment,
            purpose: end.purpose,
        },
    }
}
