//! The live records are listed.
ghost use Rattle.std.specs.Prelude.{◌≡◌, ◌∷◌, []};
ghost use Rattle.std.specs.List.{list_any};
ghost use Rattle.fk_log.specs.Writing.{Logs, output};
ghost use Rattle.fk_log.specs.Printing.{sink_by};
ghost use Rattle.fk_serve.specs.Causes.{FailsByAnswer};
ghost use Rattle.fk_serve.specs.Listing.{Lists, list_text};
ghost use Rattle.fk_serve.specs.Private.{listed_lines, listed_of, settles};
ghost use Rattle.fk_program.specs.Files.{FilesView};
ghost use Rattle.fk_program.specs.Telling.{Shows};
ghost use Rattle.fk_trial.specs.Streams.{SourceView};
ghost use Rattle.fk_daemon.specs.Outside.{FeedView};

use fk_base::Status;
use fk_host::{Host, Sink};
use fk_ledger::Ledger;
use fk_log::{LogItem, LogWriter, Verbosity, adjoining_lines_log_both, no_lines_log_nothing};
use fk_trace::Change;
use fk_view::refuse_view;
use std::alloc::Global;

/// Prints the live records of the ledger that the disk holds. All memory is taken before the first line is
/// written; where it is wanting nothing is written.
pub(crate) fn list_records<H: Host, K: Sink>(alloc: Global, host: &mut H, out: &mut K) -> Status
    ensures lists { let at = listed_of H.Disk K.Sink in (files : FilesView) (feed : FeedView) (input : SourceView)
        → Lists (at files feed input host.old out.old) (at files feed input host.new out.new) result }
    ensures counts { let at = listed_of H.Disk K.Sink in (files : FilesView) (feed : FeedView) (input : SourceView)
        → FailsByAnswer result (at files feed input host.old out.old) (at files feed input host.new out.new) }
{
    match Ledger::view(alloc, host) {
        Ok(changes) => print_live(&changes, out),
        Err(fault) => refuse_view(fault, out),
    }
}

/// Prints a line for each live record.
fn print_live<K: Sink>(changes: &[Change], out: &mut K) -> Status
    ensures { let at = sink_by K.Sink in Shows (list_text changes.now) (at out.old) (at out.new) result }
{
    no_lines_log_nothing();
    adjoining_lines_log_both();
    let mut log = LogWriter::new(Verbosity::Normal);
    for change in changes {
        log_opened(changes, change, &mut log, out);
    }
    if log.is_broken() {
        Status::SinkFault
    } else {
        Status::Done
    }
}

/// Logs the record that the change opens, where it is live.
fn log_opened<K: Sink>(changes: &[Change], change: &Change, log: &mut LogWriter, out: &mut K)
    ensures { Logs (listed_lines changes.now (change.now ∷ [])) (output log.old (K.written out.old) (K.faults out.old))
        (output log.new (K.written out.new) (K.faults out.new)) }
{
    no_lines_log_nothing();
    if let Change::Open(item) = change {
        if !is_done(changes, item.id) {
            log.add(&LogItem::Listed { item }, out);
        }
    }
}

/// Whether the record of this number is closed for good.
fn is_done(changes: &[Change], id: u64) -> bool
    ensures { result ≡ list_any (settles id) changes.now }
{
    changes.iter().any(|change| settles(change, id))
}

fn settles(change: &Change, id: u64) -> bool
    ensures { result ≡ settles id change.now }
{
    match change {
        Change::Done(done) => *done == id,
        Change::Open(_) | Change::Settled { .. } | Change::Floor { .. } => false,
    }
}
