ghost use Rattle.fk_child.specs.View.{view_of};
ghost use Rattle.fk_daemon.specs.Account.{AreLimits};
ghost use Rattle.fk_log.specs.Causes.{FailsOnlyAs, FailsSink};
ghost use Rattle.fk_log.specs.Printing.{sink_by};
ghost use Rattle.fk_daemon.specs.Outside.{feed_by, outside_by};
ghost use Rattle.fk_daemon.specs.Serving.{Serves};

use crate::Task;
use crate::opening::{open_daemon, say_fault};
use crate::session::Session;
use fk_base::Status;
use fk_host::{Feed, Host, Sink};
use fk_run::legal_runs_keep_the_headline;
use std::alloc::Global;

/// Serves turns of the feed until a limit is reached, the feed has ended or something failed.
pub fn serve<E: Feed, H: Host, K: Sink>(
    alloc: Global,
    task: &Task<'_>,
    feed: &mut E,
    host: &mut H,
    out: &mut K,
) -> Status
    requires { AreLimits task.now.limits }
    ensures serves { let at = outside_by E.Feed H.Disk K.Sink in
        Serves task.now (at feed.old host.old out.old) (at feed.new host.new out.new) result }
    ensures feed { FailsOnlyAs Status.FeedFault result (E.faults feed.old) (E.faults feed.new) }
    ensures disk { FailsOnlyAs Status.DiskFault result (H.faults host.old) (H.faults host.new) }
    ensures sink { FailsSink result (K.faults out.old) (K.faults out.new) }
{
    match open_daemon(alloc, task.policy.conf, host) {
        Ok(daemon) => {
            legal_runs_keep_the_headline();
            let mut session = Session::new(daemon, task.verbosity);
            let stop = session.run(task, feed, host, out);
            session.end(stop, out)
        }
        Err(fault) => say_fault(task.verbosity, fault, out),
    }
}
