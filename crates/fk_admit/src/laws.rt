ghost use Rattle.std.specs.Prelude.{◌≡◌, ◌↔◌, [], ◌∷◌, List, None, Ok};
ghost use Rattle.fk_base.specs.FirstFailed.{first_failed};
ghost use Rattle.fk_base.specs.declared.grant.Grant.{Grant as Granted};
ghost use Rattle.fk_packet.specs.Shape.{shape_fault};
ghost use Rattle.fk_access.specs.declared.key_ring.TimedKeys.{TimedKeys};
ghost use Rattle.fk_access.specs.declared.stanza.Stanza.{Stanza as Rule};
ghost use Rattle.fk_admit.specs.Admit.{admitted};
ghost use Rattle.fk_admit.specs.Arrival.{Arrival};
ghost use Rattle.fk_admit.specs.Conditions.{tests, tests_under};
ghost use Rattle.fk_admit.specs.FirstGrant.{IsFirstGrant};

/// A grant is given exactly to a datagram of the right shape, by the first stanza of the file that grants anything.
pub fn the_first_that_grants_is_taken()
    ensures { (access : List Rule) (arrival : Arrival) (grant : Granted) → (admitted access arrival ≡ Ok grant)
        ↔ ((shape_fault arrival.datagram ≡ None) × IsFirstGrant access arrival grant) }
{}

/// A stanza with one pair of keys that has no last moment fails the first of the ten conditions that fails under these keys.
pub fn one_pair_is_ten_conditions()
    ensures { (stanza : Rule) (arrival : Arrival) (timed : TimedKeys) → stanza.ring ≡ timed ∷ [] → timed.until ≡ None
        → first_failed (tests stanza arrival) ≡ first_failed (tests_under timed.keys stanza arrival) }
{}
