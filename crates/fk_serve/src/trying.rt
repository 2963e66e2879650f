//! The two files are read, and the lines of the input tried by them.
ghost use Rattle.std.specs.Prelude.{◌≡◌, ◌≢◌, ◌⊎◌};
ghost use Rattle.fk_log.specs.Causes.{FailsOnlyAs, FailsSink};
ghost use Rattle.fk_serve.specs.Private.{TellsFiles, TriesFiles, bench_of, names_of};

use crate::files::{FileNames, Settings, read_files};
use fk_base::Status;
use fk_host::{Files, Sink, Source};
use fk_log::Verbosity;
use fk_program::refuse;
use fk_trial::{TrialTask, trial};
use fk_turn::Policy;
use std::alloc::Global;

/// Reads the two files, and tries the lines of the input by them.
pub(crate) fn try_by_files<F: Files, I: Source, K: Sink>(
    alloc: Global,
    names: FileNames<'_>,
    verbosity: Verbosity,
    files: &mut F,
    input: &mut I,
    out: &mut K,
) -> Status
    ensures tries { let at = bench_of F.Files I.Source K.Sink in
        TriesFiles (names_of names.entry) verbosity (at files.old input.old out.old) (at files.new input.new out.new) result
        ⊎ TellsFiles (names_of names.entry) (at files.old input.old out.old) (at files.new input.new out.new) result }
    ensures files { FailsOnlyAs Status.FileFault result (F.faults files.old) (F.faults files.new) }
    ensures input { FailsOnlyAs Status.ReadFault result (I.faults input.old) (I.faults input.new) }
    ensures sink { FailsSink result (K.faults out.old) (K.faults out.new) }
    ensures feed { result ≢ Status.FeedFault }
    ensures disk { result ≢ Status.DiskFault }
{
    let settings = match read_files(alloc, names, files) {
        Ok(settings) => settings,
        Err(refusal) => return refuse(refusal, out),
    };
    let task = task_of(&settings, verbosity);
    trial(alloc, &task, input, out)
}

/// What the files and the words say together.
fn task_of<'a>(settings: &'a Settings, verbosity: Verbosity) -> TrialTask<'a>
    ensures conf { result.policy.conf.now ≡ settings.now.conf }
    ensures access { result.policy.access.now ≡ settings.now.access }
    ensures verbosity { result.verbosity ≡ verbosity }
{
    TrialTask {
        policy: Policy {
            conf: &settings.conf,
            access: &settings.access,
        },
        verbosity,
    }
}
