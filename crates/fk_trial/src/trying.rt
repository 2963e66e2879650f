ghost use Rattle.std.specs.Prelude.{◌+◌};
ghost use Rattle.fk_input.specs.Lines.{input_limit};
ghost use Rattle.fk_log.specs.Causes.{FailsOnlyAs, FailsSink};
ghost use Rattle.fk_log.specs.Printing.{sink_by};
ghost use Rattle.fk_trial.specs.Streams.{TakesAtMost, source_by, streams_by};
ghost use Rattle.fk_trial.specs.Trial.{Tries};

use crate::TrialTask;
use crate::session::Session;
use fk_base::Status;
use fk_host::{Sink, Source};
use fk_log::{LogItem, LogWriter, no_lines_log_nothing};
use std::alloc::Global;

/// Serves the lines of the input, one after another, until it has ended, a line is none of the grammar, or something failed.
pub fn trial<I: Source, K: Sink>(
    alloc: Global,
    task: &TrialTask<'_>,
    input: &mut I,
    out: &mut K,
) -> Status
    ensures tries { let at = streams_by I.Source K.Sink in
        Tries task.now (at input.old out.old) (at input.new out.new) result }
    ensures input { FailsOnlyAs Status.ReadFault result (I.faults input.old) (I.faults input.new) }
    ensures sink { FailsSink result (K.faults out.old) (K.faults out.new) }
    // However long the input is, at most 67108865 bytes of it are taken.
    ensures bound { TakesAtMost (input_limit + 1) (I.left input.old) (I.left input.new) }
{
    no_lines_log_nothing();
    let mut log = LogWriter::new(task.verbosity);
    log.add(&LogItem::Ready { live: 0 }, out);
    let Ok(mut session) = Session::begin(alloc, task.policy.conf, log) else {
        return Status::NoMemory;
    };
    let stop = session.serve_lines(task, input, out);
    session.end(stop, out)
}
