ghost use Rattle.std.specs.Prelude.{◌≡◌};
ghost use Rattle.fk_base.specs.Address.{ip_in};
ghost use Rattle.fk_base.specs.Decimal.{number_in};
ghost use Rattle.fk_base.specs.PairText.{pair_in};

use crate::decimal::read_number;
use crate::{Ip4, Pair, read_ip, read_pair};

/// The number of at most `greatest` that the text writes.
pub fn find_number(text: &[u8], greatest: u64) -> Option<u64>
    ensures { result ≡ number_in greatest text.now }
{
    read_number(text, greatest).ok()
}

/// The address that the text writes.
pub fn find_ip(text: &[u8]) -> Option<Ip4>
    ensures { result ≡ ip_in text.now }
{
    read_ip(text).ok()
}

/// The pair that the text writes.
pub fn find_pair(text: &[u8]) -> Option<Pair>
    ensures { result ≡ pair_in text.now }
{
    read_pair(text).ok()
}
