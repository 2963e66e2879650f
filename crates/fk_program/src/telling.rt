//! What a program prints of what was done, and of why it comes to nothing.
ghost use Rattle.std.specs.Prelude.{◌≡◌, Some, is_err};
ghost use Rattle.fk_log.specs.Item.{line_of};
ghost use Rattle.fk_log.specs.Line.{line_text};
ghost use Rattle.fk_log.specs.Printing.{sink_by};
ghost use Rattle.fk_program.specs.Telling.{Says, Shows, printed_status};

use fk_base::{Failed, Status};
use fk_host::{Sink, write_all};
use fk_log::{LogItem, render};

/// Prints the text of what was done.
pub fn show_text<K: Sink>(text: &[u8], out: &mut K) -> Status
    ensures { let at = sink_by K.Sink in Shows text.now (at out.old) (at out.new) result }
{
    printed_status(write_all(out, text))
}

/// Prints the line of a fault, which hides that of the output.
pub fn say<K: Sink>(item: &LogItem<'_>, out: &mut K)
    ensures { let at = sink_by K.Sink in Says (Some (line_text (line_of item.now))) (at out.old) (at out.new) }
{
    let _said = render(item, out);
}

/// The status of what was done, by how the printing of its text went.
pub fn printed_status(written: Result<(), Failed>) -> Status
    ensures { result ≡ printed_status (is_err written) }
{
    match written {
        Ok(()) => Status::Done,
        Err(Failed) => Status::SinkFault,
    }
}
