ghost use Rattle.std.specs.Prelude.{◌≡◌, ℕ, List, ◌∷◌, ◌++◌};
ghost use Rattle.std.specs.List.{Contains};
ghost use Rattle.fk_base.specs.declared.purpose.Purpose.TheVariants.{Open, Close};
ghost use Rattle.fk_trace.specs.declared.change.OpenRecord.{OpenRecord};
ghost use Rattle.fk_trace.specs.declared.change.Change.{Change};
ghost use Rattle.fk_trace.specs.Trace.{Item, Child};
ghost use Rattle.fk_trace.specs.Ledger.{dones, after, IsLedger};
ghost use Rattle.fk_trace.specs.Decision.{FeedTurn, Permit, Rules, IsGranted, answer};
ghost use Rattle.fk_trace.specs.Decision.Answer.{Opens};
ghost use Rattle.fk_trace.specs.Settled.{EndedCleanly};
ghost use Rattle.fk_trace.specs.Attempts.{IsAttempt};
ghost use Rattle.fk_run.specs.Place.{entry};
ghost use Rattle.fk_run.specs.Turn.{TakenTurn, after_turns};
ghost use Rattle.fk_run.specs.Run.{Run, trace_of, changes_of};
ghost use Rattle.fk_run.specs.Legal.{Legal, BeganBehind, MeansChild};
ghost use Rattle.fk_run.specs.Planned.{MakesWhatIsPlanned};
ghost use Rattle.fk_run.specs.Headline.{
  OpensByGrant,
  OpensOnce,
  ClosesWhenDue,
  IsTurnOf,
  IsWholeTurnOf,
  IsFirstDue,
  AttemptedIn,
  StartsWhatIsOwed,
};

/// Every legal run keeps the headline: an open is attempted only for a granted datagram, and at most once for each digest and stamp; a
/// close only for a live record that is due and idle; only a clean close that ended well in the same turn settles a record; and each
/// turn that is not cut short starts what is owed at it. In a run over a ledger a close is attempted at the first turn at or past
/// its record's due.
pub fn legal_runs_keep_the_headline()
    ensures opens { (run : Run) → Legal run → (before : List Item) (item : Item) (later : List Item) (id : ℕ) (words : List (List ℕ))
        → trace_of run ≡ before ++ item ∷ later → IsAttempt (Open id) words item.event → OpensByGrant run before item id words }
    ensures once { (run : Run) → Legal run → OpensOnce run }
    ensures closes { (run : Run) → Legal run → (before : List Item) (item : Item) (later : List Item) (id : ℕ) (words : List (List ℕ))
        → trace_of run ≡ before ++ item ∷ later → IsAttempt (Close id) words item.event → ClosesWhenDue run before item id words }
    ensures settles { (run : Run) → Legal run → (front : List TakenTurn) (taken : TakenTurn) → IsTurnOf run front taken → (id : ℕ)
        → Contains (dones taken.changes) id → EndedCleanly (after_turns (entry run.ledger) front).past taken.items id }
    ensures starts { (run : Run) → Legal run → (front : List TakenTurn) (taken : TakenTurn) → IsWholeTurnOf run front taken
        → StartsWhatIsOwed run front taken }
    ensures first_due { (run : Run) → Legal run → IsLedger run.ledger → (front : List TakenTurn) (taken : TakenTurn) → IsWholeTurnOf run front taken
        → (item : OpenRecord) → IsFirstDue run front taken item → AttemptedIn taken.items (Close item.id) item.close }
{}

/// A legal run makes the changes that are planned for its turns: all of them, or, where its last turn is cut, all of the turns
/// before it and a front of those of the last.
pub fn legal_runs_make_what_is_planned()
    ensures { (run : Run) → Legal run → MakesWhatIsPlanned run }
{}

/// A legal run over a ledger leaves a ledger: its records are numbered on, no digest stands twice, and each Done names a record
/// that is live before it.
pub fn legal_runs_leave_a_ledger()
    ensures { (run : Run) → Legal run → IsLedger run.ledger → IsLedger (after run.ledger (changes_of run)) }
{}

/// In a legal run a number means one child, from its beginning on: the end of a child and the test whether a close was clean speak
/// of the same one.
pub fn legal_runs_tell_children_apart()
    ensures { (run : Run) → Legal run → (before : List Item) (child : Child) (past : List Item)
        → BeganBehind run before child past → MeansChild before child past }
{}

/// What is granted is what a turn's answer opens, by the same permit, and the other way round.
pub fn what_is_granted_is_opened()
    ensures opened { (rules : Rules) (ledger : List Change) (turn : FeedTurn) (item : OpenRecord) (changes : List Change) (words : List (List ℕ))
        → (granted : IsGranted rules ledger turn item changes words) → answer rules ledger turn ≡ Opens item granted.permit changes }
    ensures granted { (rules : Rules) (ledger : List Change) (turn : FeedTurn) (item : OpenRecord) (permit : Permit) (changes : List Change)
        → answer rules ledger turn ≡ Opens item permit changes → IsGranted rules ledger turn item changes permit.opening }
{}
