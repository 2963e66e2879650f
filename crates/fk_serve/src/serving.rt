//! The two files are read and served by.
ghost use Rattle.std.specs.Prelude.{◌≡◌, ◌⊎◌};
ghost use Rattle.fk_daemon.specs.Account.{AreLimits};
ghost use Rattle.fk_serve.specs.Causes.{FailsByAnswer};
ghost use Rattle.fk_serve.specs.Private.{names_of, served_of};
ghost use Rattle.fk_serve.specs.Running.{RefusesFiles, ServesByFiles};
ghost use Rattle.fk_trial.specs.Streams.{SourceView};

use crate::files::{FileNames, Settings, read_files};
use fk_base::Status;
use fk_daemon::{Task, serve};
use fk_host::{Feed, Files, Host, Sink};
use fk_log::Verbosity;
use fk_program::refuse;
use fk_run::Limits;
use fk_turn::Policy;
use std::alloc::Global;

/// What the words of a serving run say.
#[derive(Clone, Copy)]
pub(crate) struct Asked<'a> {
    pub(crate) names: FileNames<'a>,
    pub(crate) limits: Limits,
    pub(crate) verbosity: Verbosity,
}

/// Reads the two files, and serves by them.
pub(crate) fn serve_by_files<F: Files, E: Feed, H: Host, K: Sink>(
    alloc: Global,
    asked: &Asked<'_>,
    files: &mut F,
    feed: &mut E,
    host: &mut H,
    out: &mut K,
) -> Status
    requires { AreLimits asked.now.limits }
    ensures serves { let at = served_of F.Files E.Feed H.Disk K.Sink in (input : SourceView)
        → ServesByFiles (names_of asked.now.names) asked.now.limits asked.now.verbosity
        (at input files.old feed.old host.old out.old) (at input files.new feed.new host.new out.new) result
        ⊎ RefusesFiles (names_of asked.now.names)
        (at input files.old feed.old host.old out.old) (at input files.new feed.new host.new out.new) result }
    ensures counts { let at = served_of F.Files E.Feed H.Disk K.Sink in (input : SourceView)
        → FailsByAnswer result (at input files.old feed.old host.old out.old) (at input files.new feed.new host.new out.new) }
{
    let settings = match read_files(alloc, asked.names, files) {
        Ok(settings) => settings,
        Err(refusal) => return refuse(refusal, out),
    };
    let task = task_of(asked, &settings);
    serve(alloc, &task, feed, host, out)
}

/// What the files and the words say together.
fn task_of<'a>(asked: &Asked<'_>, settings: &'a Settings) -> Task<'a>
    ensures conf { result.policy.conf.now ≡ settings.now.conf }
    ensures access { result.policy.access.now ≡ settings.now.access }
    ensures limits { result.limits ≡ asked.now.limits }
    ensures verbosity { result.verbosity ≡ asked.now.verbosity }
{
    Task {
        policy: Policy {
            conf: &settings.conf,
            access: &settings.access,
        },
        limits: asked.limits,
        verbosity: asked.verbosity,
    }
}
