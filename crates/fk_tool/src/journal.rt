//! The changes that the disk's journal holds are shown.
ghost use Rattle.std.specs.Prelude.{length};
ghost use Rattle.fk_child.specs.View.{view_of};
ghost use Rattle.fk_log.specs.Printing.{sink_by};
ghost use Rattle.fk_tool.specs.JournalText.{AreShown};
ghost use Rattle.fk_tool.specs.Lines.{ShowsLines};
ghost use Rattle.fk_tool.specs.Running.{PrintsJournal};

use crate::change_line::change_line;
use crate::writing::write_line;
use fk_base::{Failed, NoMemory, Status};
use fk_host::{Disk, Sink};
use fk_ledger::Ledger;
use fk_trace::Change;
use fk_view::refuse_view;
use std::alloc::Global;

/// Prints the changes of the ledger that the disk holds, which is read and not written.
pub(crate) fn show_journal<D: Disk, K: Sink>(alloc: Global, disk: &mut D, out: &mut K) -> Status
    ensures { let view = view_of D.Disk in let at = sink_by K.Sink in
        PrintsJournal (view disk.old) (view disk.new) (at out.old) (at out.new) result }
{
    match Ledger::view(alloc, disk) {
        Ok(changes) => show_changes(alloc, &changes, out),
        Err(fault) => refuse_view(fault, out),
    }
}

/// Prints a line for each change, in their order.
fn show_changes<K: Sink>(alloc: Global, changes: &[Change], out: &mut K) -> Status
    ensures { let at = sink_by K.Sink in
        ShowsLines (AreShown changes.now) (length changes.now) (at out.old) (at out.new) result }
{
    for change in changes {
        let line = match change_line(alloc, change) {
            Ok(line) => line,
            Err(NoMemory) => return Status::NoMemory,
        };
        if let Err(Failed) = write_line(line.as_slice(), out) {
            return Status::SinkFault;
        }
    }
    Status::Done
}
