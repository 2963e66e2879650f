ghost use Rattle.std.specs.Prelude.{◌≡◌, ◌==◌, ◌&&◌, false, true};
ghost use Rattle.std.specs.List.{list_all};
ghost use Rattle.std.specs.Option.{option_map_or};
ghost use Rattle.fk_admit.specs.Conditions.{is_in, is_same_proto, may_open};

use fk_access::{PairList, Stanza};
use fk_base::{Pair, Proto};

/// Whether each of the pairs may be asked for.
pub(crate) fn may_open_all(stanza: &Stanza, pairs: &[Pair]) -> bool
    ensures { result ≡ list_all (may_open stanza.now) pairs.now }
{
    pairs.iter().all(|pair| may_open(stanza, *pair))
}

fn may_open(stanza: &Stanza, pair: Pair) -> bool
    ensures { result ≡ may_open stanza.now pair }
{
    is_listed(stanza.allowed.as_ref(), pair, true)
        && !is_listed(stanza.barred.as_ref(), pair, false)
}

/// Whether the pair stands in the list, or this where there is none.
fn is_listed(list: Option<&PairList>, pair: Pair, without: bool) -> bool
    ensures { result ≡ option_map_or (λ l. is_in l.now pair) list.entry without }
{
    match list {
        Some(list) => is_in(list.as_slice(), pair),
        None => without,
    }
}

fn is_in(pairs: &[Pair], pair: Pair) -> bool
    ensures { result ≡ is_in pairs.now pair }
{
    pairs.iter().any(|p| is_same_proto(p.proto, pair.proto) && p.port == pair.port)
}

fn is_same_proto(a: Proto, b: Proto) -> bool
    ensures { result ≡ is_same_proto a b }
{
    match (a, b) {
        (Proto::Tcp, Proto::Tcp) | (Proto::Udp, Proto::Udp) => true,
        (Proto::Tcp, Proto::Udp) | (Proto::Udp, Proto::Tcp) => false,
    }
}
