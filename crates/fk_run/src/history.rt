ghost use Rattle.std.specs.Prelude.{◌≡◌, List, [], ◌∷◌, ◌++◌};
ghost use Rattle.std.specs.List.{Contains};
ghost use Rattle.fk_trace.specs.declared.change.Change.{Change};
ghost use Rattle.fk_trace.specs.Ledger.{IsLedger, state_of};
ghost use Rattle.fk_run.specs.History.{
  Visit,
  IsVisit,
  IsHistory,
  OpensByGrantOnly,
  OpensOnceEver,
  StartsAllThatIsOwed,
  ClosesAtFirstDue,
  StaysOwed,
  ledger_left,
  left_in_the_end,
};

/// Every history keeps the headline, whatever its datagrams, moments, ends of children and crashes: an open is attempted only for
/// a datagram of the same turn that the rules of its run grant, and over all runs at most once for each digest and stamp, failed
/// attempts counted; each turn but one that is cut starts what is owed at it, and the close of each record at the first turn of its run at or
/// past the record's due; and a record that was on the areas is live in each later run unless a clean close of it has ended well.
/// What each run leaves is a ledger again.
pub fn histories_keep_the_headline()
    ensures opens { (found : List Change) (history : List Visit) → IsHistory found history
        → (visit : Visit) → Contains history visit → OpensByGrantOnly visit }
    ensures once { (found : List Change) (history : List Visit) → IsHistory found history → OpensOnceEver found history }
    ensures starts { (found : List Change) (history : List Visit) → IsHistory found history
        → (visit : Visit) → Contains history visit → StartsAllThatIsOwed visit }
    ensures first_due { (found : List Change) (history : List Visit) → IsHistory found history
        → (visit : Visit) → Contains history visit → ClosesAtFirstDue visit }
    ensures owed { (found : List Change) (history : List Visit) → IsHistory found history → StaysOwed history }
    ensures ledgers { (found : List Change) (history : List Visit) → IsHistory found history
        → (visit : Visit) → Contains history visit → IsLedger (ledger_left visit) }
{}

/// A run that found what a history left in the end is one more of that history, and what it leaves is then left in the end.
pub fn histories_go_on()
    ensures next { (found : List Change) (history : List Visit) (visit : Visit) → IsHistory found history → IsVisit visit
        → state_of visit.run.ledger ≡ state_of (left_in_the_end found history) → IsHistory found (history ++ visit ∷ []) }
    ensures end { (found : List Change) (history : List Visit) (visit : Visit)
        → left_in_the_end found (history ++ visit ∷ []) ≡ ledger_left visit }
{}
