ghost use Rattle.std.specs.Prelude.{◌≡◌, ℕ, List};
ghost use Rattle.fk_access.specs.declared.stanza.Stanza.{Stanza as Rule};
ghost use Rattle.fk_access.specs.ReadsAccess.{ReadsAccess};

/// A text says one list of stanzas at most.
pub fn one_access_list()
    ensures { (text : List ℕ) (stanzas others : List Rule) → ReadsAccess text stanzas → ReadsAccess text others → stanzas ≡ others }
{}
