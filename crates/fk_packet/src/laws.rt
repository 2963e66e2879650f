ghost use Rattle.std.specs.Prelude.{◌≡◌, ◌↔◌, ℕ, List, None, Ok};
ghost use Rattle.fk_base.specs.declared.keys.Keys.{Keys};
ghost use Rattle.fk_fields.specs.declared.fields.Fields.{Fields};
ghost use Rattle.fk_packet.specs.Opens.{opened_under};
ghost use Rattle.fk_packet.specs.Packs.{Packs};
ghost use Rattle.fk_packet.specs.Shape.{shape_fault};

/// Keys open a datagram to the fields that it packs under them, and to no others.
pub fn datagrams_are_opened()
    ensures { (keys : Keys) (fields : Fields) (datagram : List ℕ)
        → (opened_under keys datagram ≡ Ok fields) ↔ Packs keys fields datagram }
{}

/// Every datagram has the right shape.
pub fn datagrams_have_shape()
    ensures { (keys : Keys) (fields : Fields) (datagram : List ℕ) → Packs keys fields datagram → shape_fault datagram ≡ None }
{}

/// Under one pair of keys no datagram packs two lists of fields.
pub fn one_packet()
    ensures { (keys : Keys) (fields others : Fields) (datagram : List ℕ)
        → Packs keys fields datagram → Packs keys others datagram → fields ≡ others }
{}
