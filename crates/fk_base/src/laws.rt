ghost use Rattle.std.specs.Prelude.{◌≡◌, ◌↔◌, ℕ, ◌<◌, ◌≤◌, ◌^◌, List, Some};
ghost use Rattle.std.specs.Fmt.{decimal};
ghost use Rattle.fk_base.specs.declared.address.Ip4.{Ip4};
ghost use Rattle.fk_base.specs.declared.file.TheConstants.{FILE_LIMIT};
ghost use Rattle.fk_base.specs.declared.moment.TheConstants.{GREATEST_MOMENT, LONGEST_TIME};
ghost use Rattle.fk_base.specs.declared.pair.Pair.{Pair};
ghost use Rattle.fk_base.specs.Address.{ip_in, ip_text};
ghost use Rattle.fk_base.specs.Decimal.{number_in};
ghost use Rattle.fk_base.specs.PairText.{pair_in, pair_text};

/// A text writes a number exactly where it is the number's text.
pub fn numbers_are_found()
    ensures { (greatest n : ℕ) (text : List ℕ) → greatest < 2 ^ 64
        → (number_in greatest text ≡ Some n) ↔ ((n ≤ greatest) × (text ≡ decimal n)) }
{}

/// A text writes an address exactly where it is the address's text.
pub fn addresses_are_found()
    ensures { (text : List ℕ) (ip : Ip4) → (ip_in text ≡ Some ip) ↔ ((ip.0 < 2 ^ 32) × (text ≡ ip_text ip)) }
{}

/// A text writes a pair exactly where it is the pair's text.
pub fn pairs_are_found()
    ensures { (text : List ℕ) (pair : Pair) → (pair_in text ≡ Some pair) ↔ ((pair.port < 2 ^ 16) × (text ≡ pair_text pair)) }
{}

/// The numbers of the limits that definitions name by a constant of the code: the greatest moment and the longest time for which a
/// service is opened, in seconds, and the most bytes of a file.
pub fn limits_have_their_numbers()
    ensures moment { GREATEST_MOMENT ≡ 999999999999 }
    ensures time { LONGEST_TIME ≡ 604800 }
    ensures file { FILE_LIMIT ≡ 1048576 }
{}
