//! What arguments stand for: addresses, pairs, keys, purposes. Where an argument is none of these, the row is refused, and another value or
//! none stands in its place.
ghost use Rattle.std.specs.Prelude.{◌≡◌};
ghost use Rattle.std.specs.List.{list_all};
ghost use Rattle.fk_base.specs.Characters.{is_line_byte};

use fk_base::{Bytes, HashKind, Ip4, Keys, Moment, Pair, Pairs, Purpose, find_ip, find_pair};
use fk_row_text::{Arguments, RowFault};
use fk_values::KEY_LIMIT;
use std::alloc::Global;

/// The value, or a row that is refused for this reason.
pub(crate) fn wanted<T>(
    value: Option<T>,
    fault: RowFault,
    arguments: &mut Arguments<'_>,
) -> Option<T> {
    if value.is_none() {
        arguments.refuse(fault);
    }
    value
}

/// The address of a word such as `10.0.0.7`.
pub(crate) fn address(arguments: &mut Arguments<'_>) -> Ip4 {
    match find_ip(arguments.word()) {
        Some(ip) => ip,
        None => {
            arguments.refuse(RowFault::NoWord);
            Ip4(0)
        }
    }
}

/// The pair of a word such as `tcp/22`.
pub(crate) fn pair(arguments: &mut Arguments<'_>) -> Option<Pair> {
    let found = find_pair(arguments.word());
    wanted(found, RowFault::NoWord, arguments)
}

/// The pairs of all words that are left: 1 to 16.
pub(crate) fn pairs(arguments: &mut Arguments<'_>) -> Option<Pairs> {
    let mut pairs = Pairs::one(pair(arguments)?);
    for _ in 0..16 {
        if !arguments.has_more() {
            break;
        }
        add_pair(&mut pairs, arguments);
    }
    Some(pairs)
}

fn add_pair(pairs: &mut Pairs, arguments: &mut Arguments<'_>) {
    if let Some(pair) = pair(arguments) {
        if pairs.push(pair).is_err() {
            arguments.refuse(RowFault::Further);
        }
    }
}

/// The moment of a number of seconds.
pub(crate) fn moment(arguments: &mut Arguments<'_>) -> Option<Moment> {
    let found = Moment::new(arguments.number(u64::MAX));
    wanted(found, RowFault::NoNumber, arguments)
}

/// The hash of a word such as `Sha256`.
pub(crate) fn kind(arguments: &mut Arguments<'_>) -> HashKind {
    match arguments.word() {
        b"Md5" => HashKind::Md5,
        b"Sha1" => HashKind::Sha1,
        b"Sha256" => HashKind::Sha256,
        b"Sha384" => HashKind::Sha384,
        b"Sha512" => HashKind::Sha512,
        _ => {
            arguments.refuse(RowFault::NoWord);
            HashKind::Md5
        }
    }
}

/// The keys of three arguments: the key, the hash of the HMAC and the HMAC's key.
pub(crate) fn keys(alloc: Global, arguments: &mut Arguments<'_>) -> Option<Keys> {
    let key = arguments.text();
    let kind = kind(arguments);
    let mac_key = arguments.text();
    if key.is_empty() || key.len() > KEY_LIMIT || mac_key.is_empty() || mac_key.len() > KEY_LIMIT {
        arguments.refuse(RowFault::Barred);
        return None;
    }
    let (Ok(key), Ok(mac_key)) = (Bytes::copy(alloc, key), Bytes::copy(alloc, mac_key)) else {
        arguments.refuse(RowFault::NoMemory);
        return None;
    };
    Some(Keys { key, kind, mac_key })
}

/// What a child is for, by two arguments such as `open 1`.
pub(crate) fn purpose(arguments: &mut Arguments<'_>) -> Purpose {
    if choice(arguments, b"open", b"close") {
        Purpose::Open(arguments.number(u64::MAX))
    } else {
        Purpose::Close(arguments.number(u64::MAX))
    }
}

/// Which of two words comes next: yes for the first.
pub(crate) fn choice(arguments: &mut Arguments<'_>, yes: &[u8], no: &[u8]) -> bool {
    if arguments.takes(yes) {
        return true;
    }
    if !arguments.takes(no) {
        arguments.refuse(RowFault::NoWord);
    }
    false
}

/// A number, or nothing for the word `none`.
pub(crate) fn number_if(arguments: &mut Arguments<'_>) -> Option<u64> {
    if arguments.takes(b"none") {
        return None;
    }
    Some(arguments.number(u64::MAX))
}

/// A text of so many bytes.
pub(crate) fn bytes<const N: usize>(arguments: &mut Arguments<'_>) -> [u8; N] {
    let text = arguments.text();
    let mut bytes = [0; N];
    if text.len() == N {
        bytes.copy_from_slice(text);
    } else {
        arguments.refuse(RowFault::Barred);
    }
    bytes
}

/// Whether the text has tabs and bytes from 0x20 to 0x7e alone.
pub(crate) fn is_line(text: &[u8]) -> bool
    ensures { result ≡ list_all is_line_byte text.now }
{
    text.iter()
        .all(|byte| *byte == b'\t' || matches!(byte, 0x20..=0x7e))
}
