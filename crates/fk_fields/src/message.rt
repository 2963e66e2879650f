ghost use Rattle.std.specs.Prelude.{◌≡◌, ◌⊎◌, ◌+◌, ◌<◌, ◌^◌, ◌∷◌, [], ◌++◌, List, length, map, IfErr, IfOk, MatchResult, None, OnOk, Some};
ghost use Rattle.fk_base.specs.declared.address.Ip4.{Ip4};
ghost use Rattle.fk_base.specs.declared.pair.Pair.{Pair};
ghost use Rattle.fk_base.specs.FirstFailed.{first_failed};
ghost use Rattle.fk_base.specs.PairText.{pair_in, pair_text};
ghost use Rattle.fk_base.specs.Pairs.{IsPairs};
ghost use Rattle.fk_fields.specs.Message.{asked_of_parts, message_fault, message_in, message_text, pairs_tests, parts_fault};

use fk_base::{
    Bytes, Ip4, NoMemory, PAIRS_LIMIT, Pair, Pairs, Parts, find_ip, find_pair, put_ip, put_pairs,
};
use std::alloc::Global;

/// Why a text is no message: the first fault from its left.
#[derive(Clone, Copy, Debug, PartialEq, Eq)]
pub enum MessageFault {
    BadAddress,
    /// The first part that is no pair, counted from 1.
    BadPair(usize),
    /// Nothing follows the address.
    NoPair,
    /// A 17th pair begins.
    TooMany,
}

/// Reads an address and the pairs behind it.
pub fn read_message(text: &[u8]) -> Result<(Ip4, Pairs), MessageFault>
    ensures message { IfOk result (λ asked. text.now ≡ message_text asked.0 asked.1) }
    ensures every { (ip : Ip4) (pairs : List Pair) → ip.0 < 2 ^ 32 → IsPairs pairs
        → text.now ≡ message_text ip pairs → result ≡ Ok (ip, pairs) }
    ensures fault { MatchResult result
        (λ asked. message_in text.now ≡ Some asked)
        (λ fault. message_fault text.now ≡ Some fault) }
{
    read_parts(Parts::new(text, b','))
}

/// The message of an address and pairs.
pub fn put_message(alloc: Global, ip: Ip4, pairs: &Pairs) -> Result<Bytes, NoMemory>
    ensures { IfOk result (λ text. text ≡ message_text ip pairs.now) }
{
    let mut text = Bytes::with_room(alloc, 16 + 10 * pairs.count())?;
    put_ip(ip, &mut text)?;
    text.append(b",")?;
    put_pairs(pairs, &mut text)?;
    Ok(text)
}

/// The address and the pairs that the parts are.
fn read_parts(parts: Parts<'_>) -> Result<(Ip4, Pairs), MessageFault>
    ensures { MatchResult result
        (λ asked. (parts_fault parts.entry ≡ None) × (asked_of_parts parts.entry ≡ Some asked))
        (λ fault. parts_fault parts.entry ≡ Some fault) }
{
    let mut rest = parts;
    let Some(address) = rest.next() else {
        return Err(MessageFault::BadAddress);
    };
    let Some(ip) = find_ip(address) else {
        return Err(MessageFault::BadAddress);
    };
    match read_pairs(rest) {
        Ok(pairs) => Ok((ip, pairs)),
        Err(fault) => Err(fault),
    }
}

/// The pairs that the parts are.
fn read_pairs(parts: Parts<'_>) -> Result<Pairs, MessageFault>
    ensures { MatchResult result
        (λ pairs. IsPairs pairs × (parts.entry ≡ map pair_text pairs))
        (λ fault. first_failed (pairs_tests parts.entry) ≡ Some fault) }
{
    let mut rest = parts;
    let Some(first) = rest.next() else {
        return Err(MessageFault::NoPair);
    };
    let Some(pair) = find_pair(first) else {
        return Err(MessageFault::BadPair(1));
    };
    let mut pairs = Pairs::one(pair);
    while let Some(part) = rest.next() {
        if let Err(fault) = push_part(part, &mut pairs) {
            return Err(fault);
        }
    }
    let _ = pairs.count();
    Ok(pairs)
}

/// Adds the pair that a part is.
fn push_part(part: &[u8], pairs: &mut Pairs) -> Result<(), MessageFault>
    ensures ok { OnOk result ((pair : Pair) × (Some pair ≡ pair_in part.now) × (pairs.new ≡ pairs.old ++ pair ∷ [])) }
    ensures err { IfErr result (λ fault. ((fault ≡ MessageFault.TooMany) × (length pairs.old ≡ PAIRS_LIMIT))
        ⊎ ((fault ≡ MessageFault.BadPair (length pairs.old + 1)) × (length pairs.old < PAIRS_LIMIT) × (pair_in part.now ≡ None))) }
    ensures before { IsPairs pairs.old }
{
    let count = pairs.count();
    if count == PAIRS_LIMIT {
        return Err(MessageFault::TooMany);
    }
    let Some(pair) = find_pair(part) else {
        return Err(MessageFault::BadPair(count + 1));
    };
    match pairs.push(pair) {
        Ok(()) => Ok(()),
        Err(_) => Err(MessageFault::TooMany),
    }
}
