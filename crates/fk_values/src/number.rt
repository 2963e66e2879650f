ghost use Rattle.std.specs.Prelude.{◌≡◌, ◌≤◌, IfSome};
ghost use Rattle.fk_base.specs.Decimal.{decimal_value};
ghost use Rattle.fk_values.specs.Values.{number_within};

use fk_base::find_number;

/// The number from `least` to `most` that the value is.
#[tactic(auto, using(crate::proofs::Numbers::number_found))]
pub fn read_number(value: &[u8], least: u64, most: u64) -> Option<u64>
    ensures number { result ≡ number_within least most value.now }
    ensures least { IfSome result (λ n. least ≤ n) }
    ensures most { IfSome result (λ n. n ≤ most) }
    ensures digits { IfSome result (λ n. n ≡ decimal_value value.now) }
{
    let number = find_number(value, most)?;
    if least <= number { Some(number) } else { None }
}
