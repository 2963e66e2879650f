ghost use Rattle.std.specs.Prelude.{◌≡◌};
ghost use Rattle.fk_fields.specs.Fields.{asked_ip, asked_pairs};

use fk_base::{Ip4, Pairs};
use fk_fields::Ask;

/// The address that a request names.
pub(crate) fn asked_ip(ask: &Ask) -> Ip4
    ensures { result ≡ asked_ip ask.now }
{
    match ask {
        Ask::Access { ip, .. } => *ip,
        Ask::Timed { ip, .. } => *ip,
    }
}

/// The pairs that it asks for.
pub(crate) fn asked_pairs(ask: &Ask) -> &Pairs
    ensures { result.now ≡ asked_pairs ask.now }
{
    match ask {
        Ask::Access { pairs, .. } => pairs,
        Ask::Timed { pairs, .. } => pairs,
    }
}
