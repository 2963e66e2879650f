//! A line of what is to be packed: `RAND USER STAMP MESSAGE`, or `RAND USER STAMP MESSAGE SECONDS`.
ghost use Rattle.std.specs.Prelude.{◌≡◌, ◌≤◌, IfSome};
ghost use Rattle.std.specs.Option.{option_map};
ghost use Rattle.fk_base.specs.Decimal.{number_in};
ghost use Rattle.fk_fields.specs.Message.{message_in};
ghost use Rattle.fk_tool.specs.EncodeLine.{asked_in, asked_of_five, seconds_of_parts};
ghost use Rattle.fk_tool.specs.Private.{asked_by};

use crate::asked::EncodeLine;
use fk_base::{GREATEST_MOMENT, Ip4, Pairs, Parts, find_number};
use fk_codec::find_seconds;
use fk_fields::{Rand, is_user, read_message};

/// What the line asks for, or `None` where it is none.
pub(crate) fn read_encode_line(line: &[u8]) -> Option<EncodeLine<'_>>
    ensures { option_map asked_by result ≡ asked_in line.now }
{
    let mut parts = Parts::new(line, b' ');
    let rand = parts.next()?;
    let user = parts.next()?;
    let stamp = parts.next()?;
    let message = parts.next()?;
    read_five(rand, user, stamp, message, parts)
}

/// What four parts and those behind them ask for.
fn read_five<'a>(
    rand: &[u8],
    user: &'a [u8],
    stamp: &[u8],
    message: &[u8],
    behind: Parts<'_>,
) -> Option<EncodeLine<'a>>
    ensures { option_map asked_by result ≡ asked_of_five rand.now user.now stamp.now message.now behind.entry }
{
    let rand = Rand::read(rand)?;
    if !is_user(user) {
        return None;
    }
    let stamp = find_stamp(stamp)?;
    let (ip, pairs) = find_message(message)?;
    let seconds = read_seconds(behind)?;
    Some(EncodeLine {
        rand,
        user,
        stamp,
        ip,
        pairs,
        seconds,
    })
}

/// The moment that a part writes.
fn find_stamp(part: &[u8]) -> Option<u64>
    ensures stamp { result ≡ number_in GREATEST_MOMENT part.now }
    ensures within { IfSome result (λ stamp. stamp ≤ GREATEST_MOMENT) }
{
    find_number(part, GREATEST_MOMENT)
}

/// The address and the pairs of the message that a part is.
fn find_message(part: &[u8]) -> Option<(Ip4, Pairs)>
    ensures { result ≡ message_in part.now }
{
    read_message(part).ok()
}

/// The seconds that the parts behind the message say: those of one part, and none where there is none.
fn read_seconds(behind: Parts<'_>) -> Option<Option<u32>>
    ensures seconds { result ≡ seconds_of_parts behind.entry }
    ensures within { IfSome result (λ given. IfSome given (λ n. (1 ≤ n) × (n ≤ 604800))) }
{
    let mut rest = behind;
    let Some(part) = rest.next() else {
        return Some(None);
    };
    if rest.next().is_some() {
        return None;
    }
    let seconds = find_seconds(part)?;
    Some(Some(seconds))
}
