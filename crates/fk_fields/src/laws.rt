ghost use Rattle.std.specs.Prelude.{◌≡◌, ◌↔◌, ℕ, ◌<◌, ◌^◌, List, Some};
ghost use Rattle.fk_base.specs.declared.address.Ip4.{Ip4};
ghost use Rattle.fk_base.specs.declared.pair.Pair.{Pair};
ghost use Rattle.fk_base.specs.Pairs.{IsPairs};
ghost use Rattle.fk_fields.specs.Message.{message_in, message_text};

/// An address and pairs are found in a message exactly where it is their text.
pub fn messages_are_found()
    ensures { (text : List ℕ) (ip : Ip4) (pairs : List Pair)
        → (message_in text ≡ Some (ip, pairs)) ↔ ((ip.0 < 2 ^ 32) × IsPairs pairs × (text ≡ message_text ip pairs)) }
{}
