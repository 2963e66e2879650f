ghost use Rattle.std.specs.Prelude.{◌≡◌};
ghost use Rattle.fk_fields.specs.Fields.{asked_pairs};
ghost use Rattle.fk_admit.specs.Admit.{grant_of, let_in, open_seconds};
ghost use Rattle.fk_admit.specs.Private.{arrival_of};

use crate::arriving::Arriving;
use crate::asked::asked_ip;
use fk_access::Stanza;
use fk_base::{Grant, Ip4, Pairs};
use fk_fields::{Ask, Fields};

/// What the stanza with this number grants for the fields.
pub(crate) fn grant_of(
    number: u32,
    stanza: &Stanza,
    arriving: Arriving<'_>,
    fields: Fields,
) -> Grant
    ensures { result ≡ grant_of number stanza.now (arrival_of arriving.entry) fields }
{
    let ip = let_in(asked_ip(&fields.ask), arriving.source);
    let seconds = open_seconds(stanza, &fields.ask);
    let stamp = fields.stamp;
    Grant {
        stanza: number,
        ip,
        src: arriving.source,
        pairs: take_pairs(fields.ask),
        seconds,
        stamp,
    }
}

/// The pairs that a request asks for.
fn take_pairs(ask: Ask) -> Pairs
    ensures { result ≡ asked_pairs ask }
{
    match ask {
        Ask::Access { pairs, .. } => pairs,
        Ask::Timed { pairs, .. } => pairs,
    }
}

/// The address that is let in.
fn let_in(asked: Ip4, source: Ip4) -> Ip4
    ensures { result ≡ let_in asked source }
{
    if asked.0 == 0 { source } else { asked }
}

/// For how many seconds.
fn open_seconds(stanza: &Stanza, ask: &Ask) -> u32
    ensures { result ≡ open_seconds stanza.now ask.now }
{
    match ask {
        Ask::Access { .. } => stanza.timer,
        Ask::Timed { seconds, .. } => *seconds,
    }
}
