//! A line packed.
ghost use Rattle.std.specs.Prelude.{◌≡◌, ◌≤◌, IfOk, IfSome, None, true};
ghost use Rattle.std.specs.Option.{option_or};
ghost use Rattle.fk_client.specs.Settle.{ask_of};
ghost use Rattle.fk_fields.specs.Fields.{field_fault, has_timeout};
ghost use Rattle.fk_tool.specs.Answers.{IsEncoded, fields_of};
ghost use Rattle.fk_tool.specs.Private.{asked_by};

use crate::asked::EncodeLine;
use fk_base::{Bytes, Ip4, NoMemory, Pairs};
use fk_client::Sealing;
use fk_fields::{Ask, Fields};
use fk_packet::pack;
use std::alloc::Global;

/// The datagram of what a line asks for, with this salt, and a line feed.
pub(crate) fn encoded_line(
    alloc: Global,
    sealing: &Sealing,
    line: EncodeLine<'_>,
    salt: [u8; 8],
) -> Result<Bytes, NoMemory>
    ensures { IfOk result (IsEncoded sealing.now (asked_by line.entry) salt) }
{
    let fields = fields_of(alloc, sealing, line)?;
    let mut text = pack(alloc, &fields, sealing.keys.keys(), salt)?;
    text.append(b"\n")?;
    Ok(text)
}

fn fields_of(alloc: Global, sealing: &Sealing, line: EncodeLine<'_>) -> Result<Fields, NoMemory>
    ensures fields { IfOk result (λ fields. fields ≡ fields_of sealing.now (asked_by line.entry)) }
    ensures right { IfOk result (λ fields. field_fault fields ≡ None) }
{
    let user = Bytes::copy(alloc, line.user)?;
    let version = Bytes::copy(alloc, b"3.0.0")?;
    Ok(Fields {
        rand: line.rand,
        user,
        stamp: line.stamp,
        version,
        ask: ask_of(seconds_of(sealing, line.seconds), line.ip, line.pairs),
        kind: sealing.kind,
    })
}

/// For how many seconds is asked: what the line says, else what the stanza does.
fn seconds_of(sealing: &Sealing, given: Option<u32>) -> Option<u32>
    requires { IfSome given (λ n. (1 ≤ n) × (n ≤ 604800)) }
    ensures seconds { result ≡ option_or given sealing.now.seconds }
    ensures within { IfSome result (λ n. (1 ≤ n) × (n ≤ 604800)) }
{
    match given {
        Some(_) => given,
        None => sealing.seconds,
    }
}

/// With a time the request is timed.
fn ask_of(seconds: Option<u32>, ip: Ip4, pairs: Pairs) -> Ask
    requires { IfSome seconds (λ n. (1 ≤ n) × (n ≤ 604800)) }
    ensures ask { result ≡ ask_of seconds ip pairs }
    ensures right { has_timeout result ≡ true }
{
    match seconds {
        Some(seconds) => Ask::Timed { ip, pairs, seconds },
        None => Ask::Access { ip, pairs },
    }
}
