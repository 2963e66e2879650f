//! The ledger is opened and a daemon resumed over it, or the fault is told.
ghost use Rattle.std.specs.Prelude.{◌≡◌, ◌∷◌, [], IfOk, IfErr};
ghost use Rattle.fk_child.specs.View.{view_of};
ghost use Rattle.fk_log.specs.Printing.{sink_by};
ghost use Rattle.fk_daemon.specs.Serving.{OpensInVain};
ghost use Rattle.fk_daemon.specs.Sessions.{HasOpeningCause, OpensDaemon, SaysFault};

use fk_base::{NoMemory, Status};
use fk_conf::Conf;
use fk_host::{Host, Sink};
use fk_ledger::{Ledger, LedgerErr};
use fk_log::{LogItem, LogWriter, Verbosity};
use fk_turn::Daemon;
use std::alloc::Global;

/// A daemon over the ledger that the disk holds.
pub(crate) fn open_daemon<H: Host>(
    alloc: Global,
    conf: &Conf,
    host: &mut H,
) -> Result<Daemon, LedgerErr>
    ensures ok { let view = view_of H.Disk in IfOk result (OpensDaemon conf.now (view host.old) (view host.new)) }
    ensures vain { let view = view_of H.Disk in IfErr result (λ _. OpensInVain (view host.old) (view host.new)) }
    ensures cause { let view = view_of H.Disk in IfErr result (λ fault. HasOpeningCause fault (view host.old) (view host.new)) }
{
    let (ledger, owed) = Ledger::open(alloc, host, conf.room, conf.live, conf.keep)?;
    match Daemon::resume(alloc, ledger, owed) {
        Ok(daemon) => Ok(daemon),
        Err((ledger, owed, NoMemory)) => {
            ledger.park(owed);
            Err(LedgerErr::NoMemory)
        }
    }
}

/// Says why no ledger was opened.
pub(crate) fn say_fault<K: Sink>(verbosity: Verbosity, fault: LedgerErr, out: &mut K) -> Status
    ensures { let at = sink_by K.Sink in SaysFault verbosity fault (at out.old) (at out.new) result }
{
    let mut log = LogWriter::new(verbosity);
    match fault {
        LedgerErr::Disk => {
            log.add(&LogItem::DiskFailed, out);
            Status::DiskFault
        }
        LedgerErr::Damaged(place) => {
            log.add(&LogItem::Damaged { place }, out);
            Status::Damaged
        }
        LedgerErr::NoMemory => Status::NoMemory,
    }
}
