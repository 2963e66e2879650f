ghost use Rattle.std.specs.Prelude.{◌≡◌};
ghost use Rattle.std.specs.List.{list_any};
ghost use Rattle.fk_base.specs.FirstFailed.{first_failed};
ghost use Rattle.fk_base.specs.Net.{covers};
ghost use Rattle.fk_admit.specs.Conditions.{field_tests, is_open_at, is_user_of, names_address, serves};
ghost use Rattle.fk_admit.specs.Private.{arrival_of};

use crate::Refusal;
use crate::arriving::Arriving;
use crate::asked::{asked_ip, asked_pairs};
use crate::ports::may_open_all;
use fk_access::{Sources, Stanza};
use fk_base::{Ip4, Net4};
use fk_fields::Fields;

/// Whether a packet from this address may use the stanza.
pub(crate) fn serves(sources: &Sources, source: Ip4) -> bool
    ensures { result ≡ serves sources.now source }
{
    match sources {
        Sources::Any => true,
        Sources::Nets(nets) => is_covered(nets.as_slice(), source),
    }
}

fn is_covered(nets: &[Net4], source: Ip4) -> bool
    ensures { result ≡ list_any (λ net. covers net source) nets.now }
{
    nets.iter().any(|net| net.covers(source))
}

/// Whether the stanza lets anybody in at this moment.
pub(crate) fn is_open_at(last: Option<u64>, moment: u64) -> bool
    ensures { result ≡ is_open_at last moment }
{
    match last {
        Some(last) => moment <= last,
        None => true,
    }
}

/// The first condition on its fields that a packet does not meet.
pub(crate) fn field_refusal(
    stanza: &Stanza,
    arriving: Arriving<'_>,
    fields: &Fields,
) -> Option<Refusal>
    ensures { result ≡ first_failed (field_tests stanza.now (arrival_of arriving.entry) fields.now) }
{
    if arriving.moment.abs_diff(fields.stamp) > u64::from(arriving.age) {
        return Some(Refusal::Age);
    }
    if !is_user_of(stanza, fields) {
        return Some(Refusal::User);
    }
    if !names_address(stanza, fields) {
        return Some(Refusal::Source);
    }
    if !may_open_all(stanza, asked_pairs(&fields.ask).as_slice()) {
        return Some(Refusal::Port);
    }
    None
}

fn is_user_of(stanza: &Stanza, fields: &Fields) -> bool
    ensures { result ≡ is_user_of stanza.now fields.now }
{
    match &stanza.user {
        Some(user) => user.as_slice() == fields.user.as_slice(),
        None => true,
    }
}

fn names_address(stanza: &Stanza, fields: &Fields) -> bool
    ensures { result ≡ names_address stanza.now fields.now }
{
    !(stanza.need_source && asked_ip(&fields.ask).0 == 0)
}
