ghost use Rattle.fk_log.specs.Printing.{sink_by};
ghost use Rattle.fk_program.specs.Telling.{Stops};
ghost use Rattle.fk_view.specs.Viewing.{view_status, view_text};

use fk_base::Status;
use fk_host::Sink;
use fk_ledger::LedgerErr;
use fk_log::LogItem;
use fk_program::say;

/// Says why the disk gave no ledger. Where memory is wanting nothing is written.
pub fn refuse_view<K: Sink>(fault: LedgerErr, out: &mut K) -> Status
    ensures { let at = sink_by K.Sink in Stops (view_status fault) (view_text fault) (at out.old) (at out.new) result }
{
    match fault {
        LedgerErr::Disk => {
            say(&LogItem::DiskFailed, out);
            Status::DiskFault
        }
        LedgerErr::Damaged(place) => {
            say(&LogItem::Damaged { place }, out);
            Status::Damaged
        }
        LedgerErr::NoMemory => Status::NoMemory,
    }
}
