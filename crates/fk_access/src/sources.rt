ghost use Rattle.std.specs.Prelude.{◌≡◌, MatchOption, true, false};
ghost use Rattle.fk_access.specs.AccessValues.{are_sources, is_any_source};
ghost use Rattle.fk_access.specs.SourcesOf.{AreSourcesOf};

use crate::NetList;
use crate::net_list::{is_net_list, read_nets};

/// Where a stanza's packets may come from.
#[derive(Drop)]
pub enum Sources {
    Any,
    Nets(NetList),
}

/// The sources that a value names, where it does.
pub(crate) fn read_sources(value: &[u8]) -> Option<Sources>
    ensures { MatchOption result
        (are_sources value.now ≡ false)
        (λ sources. (are_sources value.now ≡ true) × AreSourcesOf value.now sources) }
{
    if is_any(value) {
        return Some(Sources::Any);
    }
    read_nets(value).map(Sources::Nets)
}

pub(crate) fn are_sources(value: &[u8]) -> bool
    ensures { result ≡ are_sources value.now }
{
    is_any(value) || is_net_list(value)
}

fn is_any(value: &[u8]) -> bool
    ensures { result ≡ is_any_source value.now }
{
    value == b"ANY".as_slice()
}
