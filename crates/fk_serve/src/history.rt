ghost use Rattle.std.specs.Prelude.{◌≢◌, List};
ghost use Rattle.std.specs.List.{Contains};
ghost use Rattle.fk_trace.specs.declared.change.Change.{Change};
ghost use Rattle.fk_trace.specs.Ledger.{IsLedger};
ghost use Rattle.fk_host.specs.Disk.{Areas};
ghost use Rattle.fk_ledger.specs.Holds.{HoldsState};
ghost use Rattle.fk_serve.specs.Calls.{Call, AreCalls, AreHistory, IsLeftAfter};

use fk_base::Status;
use fk_host::Host;

/// Calls of the program that follow one another over the same areas, each left at a crash or at its end, are a history, whatever they
/// are called for; `histories_keep_the_headline` of fk_run says what holds of it. None of them answers that the journal is damaged.
pub fn calls_of_the_program_are_a_history<H: Host>()
    ensures history { (found : List Change) (calls : List (Call H)) → IsLedger found → AreCalls H.Disk found calls
        → (image : Areas) → IsLeftAfter H.Disk (HoldsState found) calls image → AreHistory H.Disk found calls image }
    ensures undamaged { (found : List Change) (calls : List (Call H)) → IsLedger found → AreCalls H.Disk found calls
        → (call : Call H) → Contains calls call → call.answer ≢ Status.Damaged }
{}
