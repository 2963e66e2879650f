//! What follows from the definitions alone. Each function is a law, and does nothing.
ghost use Rattle.fk_host.specs.Disk.{IfTold};
ghost use Rattle.fk_child.specs.View.{view_of};
ghost use Rattle.fk_daemon.specs.declared.task.Task.{Task};
ghost use Rattle.fk_daemon.specs.Account.{Account, IsServing};
ghost use Rattle.fk_daemon.specs.Serving.{RunsOn, OpensInVain};
ghost use Rattle.fk_daemon.specs.Visits.{LeavesRun, LeavesAsBefore};

use fk_host::Disk;

/// Whatever a call of the daemon leaves at a moment is what a crash there leaves of its run, which is then a visit of a history; or,
/// before its first calls of the disk have ended well, what stood at entry. An opening that fails leaves what stood at entry, as far as
/// a ledger is concerned.
pub fn what_serving_leaves_is_of_a_visit<H: Disk>()
    ensures run { (old new : H) (task : Task) (account : Account) → IsServing task account → RunsOn account (view_of H.Disk old) (view_of H.Disk new)
        → IfTold (H.told old) (H.told new) (LeavesRun account (view_of H.Disk old) (view_of H.Disk new)) }
    ensures vain { (old new : H) → OpensInVain (view_of H.Disk old) (view_of H.Disk new)
        → IfTold (H.told old) (H.told new) (LeavesAsBefore (view_of H.Disk old) (view_of H.Disk new)) }
{}
