//! What follows from the bytes alone. Each function is a law, and does nothing.
ghost use Rattle.std.specs.Prelude.{◌≡◌, ℕ, List};
ghost use Rattle.std.specs.List.{AllByRecursion};
ghost use Rattle.fk_journal.specs.Entries.{Content, IsContent, area_bytes, HoldsEntries, IsDamagedAt};
ghost use Rattle.fk_journal.specs.Keeps.{SameEntries};

/// What is written for a list of entries holds that list.
pub fn what_is_written_is_held()
    ensures { (contents : List Content) → AllByRecursion IsContent contents → HoldsEntries (area_bytes contents) contents }
{}

/// An area holds one list of entries at most, or it is damaged, at one place, and holds none.
pub fn no_area_holds_two_lists()
    ensures lists { (area : List ℕ) (a b : List Content) → HoldsEntries area a → HoldsEntries area b → a ≡ b }
    ensures damaged { (area : List ℕ) (contents : List Content) (place : ℕ) → HoldsEntries area contents → IsDamagedAt area place → ⊥ }
    ensures places { (area : List ℕ) (a b : ℕ) → IsDamagedAt area a → IsDamagedAt area b → a ≡ b }
{}

/// Two areas that are the same, or too short to hold anything, hold the same entries.
pub fn same_entries_are_held()
    ensures { (old new : List ℕ) (contents : List Content) → SameEntries old new → HoldsEntries old contents → HoldsEntries new contents }
{}
