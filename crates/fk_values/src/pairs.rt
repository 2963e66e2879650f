ghost use Rattle.std.specs.Prelude.{◌≡◌};
ghost use Rattle.fk_values.specs.Values.{pairs_within};

use crate::Items;
use fk_base::{Pairs, find_pair};

/// The pairs of a list of 1 to 16 of them. It takes no memory.
pub fn read_pairs(value: &[u8]) -> Option<Pairs>
    ensures { result ≡ pairs_within 16 value.now }
{
    let mut items = Items::new(value);
    let mut pairs = Pairs::one(find_pair(items.next()?)?);
    while let Some(item) = items.next() {
        if pairs.push(find_pair(item)?).is_err() {
            return None;
        }
    }
    Some(pairs)
}
