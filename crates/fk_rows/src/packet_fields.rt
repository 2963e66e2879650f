//! The fields of a packet, as rows write them: `RAND USER STAMP VERSION HASH ADDRESS access PAIR ..`, or with `timed SECONDS` for
//! `access`. RAND, USER and VERSION are texts.
use crate::reading::{address, choice, kind, pairs};
use crate::showing::{put_address, put_pairs};
use fk_base::Bytes;
use fk_fields::{Ask, Fields, Rand};
use fk_row_text::{Answer, Arguments, RowFault};
use std::alloc::Global;
use std::fmt::Debug;

/// Takes the fields of a packet, which may break their rules.
pub(crate) fn fields(alloc: Global, arguments: &mut Arguments<'_>) -> Option<Fields> {
    let rand = arguments.text();
    let user = arguments.text();
    let stamp = arguments.number(u64::MAX);
    let version = arguments.text();
    let kind = kind(arguments);
    let ask = ask(arguments)?;
    let Some(rand) = Rand::read(rand) else {
        arguments.refuse(RowFault::Barred);
        return None;
    };
    let (Ok(user), Ok(version)) = (Bytes::copy(alloc, user), Bytes::copy(alloc, version)) else {
        arguments.refuse(RowFault::NoMemory);
        return None;
    };
    Some(Fields {
        rand,
        user,
        stamp,
        version,
        ask,
        kind,
    })
}

fn ask(arguments: &mut Arguments<'_>) -> Option<Ask> {
    let ip = address(arguments);
    if choice(arguments, b"access", b"timed") {
        let pairs = pairs(arguments)?;
        return Some(Ask::Access { ip, pairs });
    }
    let seconds = arguments.number(u32::MAX as u64) as u32;
    let pairs = pairs(arguments)?;
    Some(Ask::Timed { ip, pairs, seconds })
}

/// Adds the fields of a packet to an answer, or the name of a fault.
pub(crate) fn put_opened<E: Debug>(opened: &Result<Fields, E>, answer: &mut Answer) {
    match opened {
        Ok(fields) => put_fields(fields, answer),
        Err(fault) => answer.name(fault),
    }
}

fn put_fields(fields: &Fields, answer: &mut Answer) {
    answer.text(&fields.rand.digits());
    answer.text(fields.user.as_slice());
    answer.number(fields.stamp);
    answer.text(fields.version.as_slice());
    answer.name(&fields.kind);
    put_ask(&fields.ask, answer);
}

/// Adds what is asked for to an answer.
pub(crate) fn put_ask(ask: &Ask, answer: &mut Answer) {
    match ask {
        Ask::Access { ip, pairs } => {
            put_address(*ip, answer);
            answer.word(b"access");
            put_pairs(pairs.as_slice(), answer);
        }
        Ask::Timed { ip, pairs, seconds } => {
            put_address(*ip, answer);
            answer.word(b"timed");
            answer.number(u64::from(*seconds));
            put_pairs(pairs.as_slice(), answer);
        }
    }
}
