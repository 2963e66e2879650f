//! Payloads as they are read.
ghost use Rattle.std.specs.Prelude.{◌≡◌, ℕ, ◌↔◌, ◌∷◌, ◌^◌, ◌<◌, length, IfOk, IfSome, IsErrOf, IsNone, IsTrue};
ghost use Rattle.std.specs.Int.{w16, w32, w64};
ghost use Rattle.std.specs.Option.{option_map};
ghost use Rattle.fk_base.specs.CommandWords.{AreCommandWords};
ghost use Rattle.fk_journal.specs.Entries.{Content};
ghost use Rattle.fk_base.specs.declared.digest.Digest.{Digest};
ghost use Rattle.fk_trace.specs.declared.change.Change.{Change};
ghost use Rattle.fk_trace.specs.declared.change.Change.TheVariants.{Settled, Floor};
ghost use Rattle.fk_trace.specs.declared.change.OpenRecord.{OpenRecord};
ghost use Rattle.fk_ledger.specs.Payloads.{content_of, floor_bytes, proto_number, record_bytes, settled_bytes, IsChange, IsRecord};
ghost use Rattle.fk_ledger.specs.Private.{IsCommandWord};
ghost use Rattle.fk_ledger.specs.Reading.{Gives, number_at, byte_at, word_at, texts_at, words_in, head_at, pair_at};

use fk_base::{Digest, Ip4, Moment, Pair, Proto, Words};
use fk_trace::{Change, OpenRecord};
use std::alloc::Global;

/// The greatest stamp that a record has.
const GREATEST_STAMP: u64 = 1_000_031_535_999;

/// The greatest number that a Floor gives to the next record.
const GREATEST_NEXT: u64 = 9_223_372_036_854_775_808;

/// Why a payload is not read.
#[derive(Drop)]
pub(crate) enum PayloadErr {
    Malformed,
    NoMemory,
}

impl From<fk_base::NoMemory> for PayloadErr {
    ghost use Rattle.fk_ledger.specs.declared.reading.PayloadErr.TheVariants.{NoMemory as Short};

    ghost from_gives = { λ _ e. e ≡ Short };

    fn from(_: fk_base::NoMemory) -> Self {
        PayloadErr::NoMemory
    }
}

/// The numbers and bytes before the words of a record, as they stand in its payload.
#[derive(Drop)]
struct Head {
    id: u64,
    digest: [u8; 32],
    stamp: u64,
    moment: u64,
    due: u64,
    ip: u32,
    proto: u8,
    port: u16,
}

/// The change that an entry says.
pub(crate) fn change_in(alloc: Global, kind: u8, payload: &[u8]) -> Result<Change, PayloadErr>
    ensures found { IfOk result (λ change. IsChange change × (record { kind = kind; payload = payload.now } ≡ content_of change)) }
    ensures malformed { IsErrOf result PayloadErr.Malformed → (change : Change) → IsChange change
        → record { kind = kind; payload = payload.now } ≡ content_of change → ⊥ }
{
    match kind {
        1 => Ok(Change::Open(record_in(alloc, payload)?)),
        2 => match u64_at(payload) {
            Some((id, [])) => Ok(Change::Done(id)),
            _ => Err(PayloadErr::Malformed),
        },
        3 => settled_in(payload).ok_or(PayloadErr::Malformed),
        4 => floor_in(payload).ok_or(PayloadErr::Malformed),
        _ => Err(PayloadErr::Malformed),
    }
}

/// The Settled that a payload says.
fn settled_in(payload: &[u8]) -> Option<Change>
    ensures found { IfSome result (λ change. IsChange change × (record { kind = 3; payload = payload.now } ≡ content_of change)) }
    ensures none { IsNone result → (id stamp : ℕ) (digest : Digest) → IsChange (Settled id stamp digest)
        → payload.now ≡ settled_bytes id stamp digest → ⊥ }
{
    let (id, stamp, rest) = pair_at(payload)?;
    let (digest, []) = rest.split_first_chunk::<32>()? else {
        return None;
    };
    if stamp > GREATEST_STAMP {
        return None;
    }
    Some(Change::Settled {
        id,
        stamp,
        digest: Digest(*digest),
    })
}

/// The Floor that a payload says.
fn floor_in(payload: &[u8]) -> Option<Change>
    ensures found { IfSome result (λ change. IsChange change × (record { kind = 4; payload = payload.now } ≡ content_of change)) }
    ensures none { IsNone result → (floor next : ℕ) → IsChange (Floor floor next) → payload.now ≡ floor_bytes floor next → ⊥ }
{
    let (floor, next, []) = pair_at(payload)? else {
        return None;
    };
    if next < 1 || next > GREATEST_NEXT {
        return None;
    }
    Some(Change::Floor { floor, next })
}

/// The record that a payload says.
fn record_in(alloc: Global, payload: &[u8]) -> Result<OpenRecord, PayloadErr>
    ensures found { IfOk result (λ item. IsRecord item × (payload.now ≡ record_bytes item)) }
    ensures malformed { IsErrOf result PayloadErr.Malformed → (item : OpenRecord) → IsRecord item → payload.now ≡ record_bytes item → ⊥ }
{
    let Some((head, rest)) = head_at(payload) else {
        return Err(PayloadErr::Malformed);
    };
    let Some(moment) = Moment::new(head.moment) else {
        return Err(PayloadErr::Malformed);
    };
    let Some(pair) = pair_of(head.proto, head.port) else {
        return Err(PayloadErr::Malformed);
    };
    if head.stamp > GREATEST_STAMP {
        return Err(PayloadErr::Malformed);
    }
    let close = words_in(alloc, rest)?;
    if !are_command_words(&close) {
        return Err(PayloadErr::Malformed);
    }
    Ok(OpenRecord {
        id: head.id,
        digest: Digest(head.digest),
        stamp: head.stamp,
        moment,
        due: head.due,
        ip: Ip4(head.ip),
        pair,
        close,
    })
}

fn pair_of(proto: u8, port: u16) -> Option<Pair>
    ensures some { IfSome result (λ pair. (proto_number pair.proto ≡ proto) × (pair.port ≡ port)) }
    ensures none { IsNone result → (pair : Pair) → proto_number pair.proto ≡ proto → pair.port ≡ port → ⊥ }
{
    match proto {
        6 => Pair::new(Proto::Tcp, port),
        17 => Pair::new(Proto::Udp, port),
        _ => None,
    }
}

#[tactic(auto, unfolding(crate::specs::Reading::head_at, crate::specs::Reading::byte_at))]
fn head_at(bytes: &[u8]) -> Option<(Head, &[u8])>
    ensures { option_map (λ x. (x.0, x.1.now)) result ≡ head_at bytes.now }
{
    let (id, rest) = u64_at(bytes)?;
    let (digest, rest) = rest.split_first_chunk::<32>()?;
    let (stamp, rest) = u64_at(rest)?;
    let (moment, rest) = u64_at(rest)?;
    let (due, rest) = u64_at(rest)?;
    let (ip, rest) = u32_at(rest)?;
    let (proto, rest) = rest.split_first()?;
    let (port, rest) = u16_at(rest)?;
    let head = Head {
        id,
        digest: *digest,
        stamp,
        moment,
        due,
        ip,
        proto: *proto,
        port,
    };
    Some((head, rest))
}

/// The words that the bytes say, all of the bytes.
#[tactic(auto, unfolding(crate::specs::Reading::words_in, crate::specs::Reading::byte_at))]
fn words_in(alloc: Global, bytes: &[u8]) -> Result<Words, PayloadErr>
    ensures { Gives (λ words. words) result (words_in bytes.now) }
{
    let Some((count, rest)) = bytes.split_first() else {
        return Err(PayloadErr::Malformed);
    };
    let (words, rest) = texts_at(alloc, *count, rest)?;
    if !rest.is_empty() {
        return Err(PayloadErr::Malformed);
    }
    Ok(words)
}

fn texts_at(alloc: Global, count: u8, bytes: &[u8]) -> Result<(Words, &[u8]), PayloadErr>
    ensures { Gives (λ x. (x.0, x.1.now)) result (texts_at count bytes.now) }
{
    let mut words = Words::new(alloc);
    let mut rest = bytes;
    for _ in 0..count {
        let Some((word, after)) = word_at(rest) else {
            return Err(PayloadErr::Malformed);
        };
        words.push(word)?;
        rest = after;
    }
    Ok((words, rest))
}

#[tactic(auto, unfolding(crate::specs::Reading::word_at))]
fn word_at(bytes: &[u8]) -> Option<(&[u8], &[u8])>
    ensures { option_map (λ x. (x.0.now, x.1.now)) result ≡ word_at bytes.now }
{
    let (size, rest) = u16_at(bytes)?;
    let size = size as usize;
    if rest.len() < size {
        return None;
    }
    Some(rest.split_at(size))
}

#[tactic(auto, unfolding(crate::specs::Reading::pair_at))]
fn pair_at(bytes: &[u8]) -> Option<(u64, u64, &[u8])>
    ensures { option_map (λ x. ((x.0, x.1), x.2.now)) result ≡ pair_at bytes.now }
{
    let (first, rest) = u64_at(bytes)?;
    let (second, rest) = u64_at(rest)?;
    Some((first, second, rest))
}

fn u64_at(bytes: &[u8]) -> Option<(u64, &[u8])>
    ensures { option_map (λ x. (x.0, x.1.now)) result ≡ number_at w64 bytes.now }
{
    let (number, rest) = bytes.split_first_chunk::<8>()?;
    Some((u64::from_be_bytes(*number), rest))
}

fn u32_at(bytes: &[u8]) -> Option<(u32, &[u8])>
    ensures { option_map (λ x. (x.0, x.1.now)) result ≡ number_at w32 bytes.now }
{
    let (number, rest) = bytes.split_first_chunk::<4>()?;
    Some((u32::from_be_bytes(*number), rest))
}

fn u16_at(bytes: &[u8]) -> Option<(u16, &[u8])>
    ensures { option_map (λ x. (x.0, x.1.now)) result ≡ number_at w16 bytes.now }
{
    let (number, rest) = bytes.split_first_chunk::<2>()?;
    Some((u16::from_be_bytes(*number), rest))
}

/// Whether a record may keep these words.
pub fn are_command_words(words: &Words) -> bool
    ensures { IsTrue result ↔ AreCommandWords words.now }
{
    if words.count() < 1 || words.count() > 32 {
        return false;
    }
    let mut room = 12000;
    for at in 0..words.count() {
        let word = words.get(at);
        if word.len() > room {
            return false;
        }
        if !is_command_word(word) {
            return false;
        }
        room -= word.len();
    }
    true
}

fn is_command_word(word: &[u8]) -> bool
    ensures { IsTrue result ↔ IsCommandWord word.now }
{
    !word.is_empty() && word.iter().all(|byte| 0x21 <= *byte && *byte <= 0x7e)
}
