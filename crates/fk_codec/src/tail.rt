ghost use Rattle.std.specs.Prelude.{◌≡◌, ◌+◌, ◌≤◌, length, IfSome, MatchResult, None, Some};
ghost use Rattle.fk_base.specs.FirstFailed.{first_failed};
ghost use Rattle.fk_codec.specs.DecodeFault.{asked_in, count_tests, parts_needed, seconds_in};
ghost use Rattle.fk_codec.specs.Private.{tail_ask, tail_parts, tail_tests, type_number};

use crate::DecodeFault;
use crate::head::RequestType;
use fk_base::{Ip4, LONGEST_TIME, Pairs, Parts, find_number};
use fk_fields::{Ask, read_message};
use fk_text::take_short;

/// The parts behind the type. A timed request alone has seconds.
#[derive(Drop)]
pub(crate) struct Tail<'a> {
    pub(crate) message: &'a [u8],
    pub(crate) seconds: Option<&'a [u8]>,
    pub(crate) digest: &'a [u8],
}

/// Takes the parts behind the type, which have to be all that are left.
pub(crate) fn cut_tail<'a>(
    parts: Parts<'a>,
    request_type: RequestType,
) -> Result<Tail<'a>, DecodeFault>
    ensures { MatchResult result
        (λ tail. (parts.entry ≡ tail_parts tail) × (length parts.entry + 5 ≡ parts_needed (type_number request_type)))
        (λ fault. first_failed (count_tests (parts_needed (type_number request_type)) (length parts.entry + 5)) ≡ Some fault) }
{
    match request_type {
        RequestType::Access => cut_access(parts),
        RequestType::Timed => cut_timed(parts),
    }
}

fn cut_access<'a>(parts: Parts<'a>) -> Result<Tail<'a>, DecodeFault>
    ensures { MatchResult result
        (λ tail. (parts.entry ≡ tail_parts tail) × (length parts.entry ≡ 2))
        (λ fault. first_failed (count_tests 7 (length parts.entry + 5)) ≡ Some fault) }
{
    let mut rest = parts;
    let Some(message) = rest.next() else {
        return Err(DecodeFault::Missing(6));
    };
    let Some(digest) = rest.next() else {
        return Err(DecodeFault::Missing(7));
    };
    if rest.next().is_some() {
        return Err(DecodeFault::Bad(8));
    }
    Ok(Tail {
        message,
        seconds: None,
        digest,
    })
}

fn cut_timed<'a>(parts: Parts<'a>) -> Result<Tail<'a>, DecodeFault>
    ensures { MatchResult result
        (λ tail. (parts.entry ≡ tail_parts tail) × (length parts.entry ≡ 3))
        (λ fault. first_failed (count_tests 8 (length parts.entry + 5)) ≡ Some fault) }
{
    let mut rest = parts;
    let Some(message) = rest.next() else {
        return Err(DecodeFault::Missing(6));
    };
    let Some(seconds) = rest.next() else {
        return Err(DecodeFault::Missing(7));
    };
    let Some(digest) = rest.next() else {
        return Err(DecodeFault::Missing(8));
    };
    if rest.next().is_some() {
        return Err(DecodeFault::Bad(9));
    }
    Ok(Tail {
        message,
        seconds: Some(seconds),
        digest,
    })
}

/// What the message asks for, and for how long where it is a timed request.
pub(crate) fn read_ask(tail: &Tail<'_>) -> Result<Ask, DecodeFault>
    ensures { MatchResult result
        (λ ask. (first_failed (tail_tests (tail_parts tail.now)) ≡ None) × (ask ≡ tail_ask (tail_parts tail.now)))
        (λ fault. first_failed (tail_tests (tail_parts tail.now)) ≡ Some fault) }
{
    let Some((ip, pairs)) = find_asked(tail.message) else {
        return Err(DecodeFault::Bad(6));
    };
    let Some(text) = tail.seconds else {
        return Ok(Ask::Access { ip, pairs });
    };
    let Some(seconds) = find_seconds(text) else {
        return Err(DecodeFault::Bad(7));
    };
    Ok(Ask::Timed { ip, pairs, seconds })
}

/// The address and the pairs of the message whose base64 a part is.
fn find_asked(part: &[u8]) -> Option<(Ip4, Pairs)>
    ensures { result ≡ asked_in part.now }
{
    if part.len() > 256 {
        return None;
    }
    let message = take_short(part)?;
    read_message(message.as_slice()).ok()
}

/// The seconds that a part writes: 1 to a week.
pub fn find_seconds(part: &[u8]) -> Option<u32>
    ensures seconds { result ≡ seconds_in part.now }
    ensures within { IfSome result (λ n. (1 ≤ n) × (n ≤ 604800)) }
{
    let seconds = find_number(part, LONGEST_TIME)?;
    if seconds >= 1 {
        Some(seconds as u32)
    } else {
        None
    }
}
