ghost use Rattle.std.specs.Prelude.{◌≡◌, ◌⊎◌, ℕ, ◌∷◌, ◌++◌, List, IfOk, MatchResult, None, Ok, Some};
ghost use Rattle.fk_base.specs.Parts.{parts_at};
ghost use Rattle.fk_fields.specs.declared.fields.Fields.{Fields as SpelledFields};
ghost use Rattle.fk_codec.specs.DecodeFault.{decode_fault, decoded};
ghost use Rattle.fk_codec.specs.Private.{found_fields};
ghost use Rattle.fk_codec.specs.Spells.{Spells};

use crate::DecodeFault;
use crate::digest::read_digest;
use crate::head::{cut_head, read_head};
use crate::tail::{cut_tail, read_ask};
use fk_base::{Bytes, HashKind, NoMemory, Parts};
use fk_fields::{Ask, Fields, Rand};
use fk_text::ShortBytes;
use std::alloc::Global;

/// The fields that a text spells. Want of memory hides no fault.
pub fn decode(alloc: Global, text: &[u8]) -> Result<Fields, DecodeFault>
    ensures spelled { IfOk result (λ fields. Spells fields text.now) }
    ensures every { (fields : SpelledFields) → Spells fields text.now → MatchResult result (λ f. f ≡ fields) (λ e. e ≡ DecodeFault.NoMemory) }
    ensures decoded { IfOk result (λ fields. decoded text.now ≡ Ok fields) }
    ensures fault { MatchResult result (λ _. decode_fault text.now ≡ None)
        (λ e. (decode_fault text.now ≡ Some e) ⊎ ((e ≡ DecodeFault.NoMemory) × (decode_fault text.now ≡ None))) }
{
    let found = find_fields(text)?;
    Ok(copy_found(alloc, found)?)
}

/// The fields of a text, which lie in it where they would take memory.
#[derive(Drop)]
pub(crate) struct Found<'a> {
    rand: Rand,
    user: ShortBytes,
    stamp: u64,
    version: &'a [u8],
    ask: Ask,
    kind: HashKind,
}

fn find_fields(text: &[u8]) -> Result<Found<'_>, DecodeFault>
    ensures { MatchResult result (λ found. decoded text.now ≡ Ok (found_fields found)) (λ fault. decode_fault text.now ≡ Some fault) }
{
    let mut parts = Parts::new(text, b':');
    let head = cut_head(&mut parts)?;
    let values = read_head(&head)?;
    let tail = cut_tail(parts, values.request_type)?;
    let ask = read_ask(&tail)?;
    let kind = read_digest(before_last(text, tail.digest), tail.digest)?;
    Ok(Found {
        rand: values.rand,
        user: values.user,
        stamp: values.stamp,
        version: head.version,
        ask,
        kind,
    })
}

fn copy_found(alloc: Global, found: Found<'_>) -> Result<Fields, NoMemory>
    ensures { IfOk result (λ fields. fields ≡ found_fields found.entry) }
{
    let Found {
        rand,
        user,
        stamp,
        version,
        ask,
        kind,
    } = found;
    Ok(Fields {
        rand,
        user: Bytes::copy(alloc, user.as_slice())?,
        stamp,
        version: Bytes::copy(alloc, version)?,
        ask,
        kind,
    })
}

/// All that stands before the last part and its `:`.
fn before_last<'a>(text: &'a [u8], last: &[u8]) -> &'a [u8]
    requires { (front : List ℕ) × (text.now ≡ front ++ 58 ∷ last.now) }
    ensures { text.now ≡ result.now ++ 58 ∷ last.now }
{
    &text[..text.len() - last.len() - 1]
}
