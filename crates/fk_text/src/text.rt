ghost use Rattle.std.specs.Prelude.{◌≡◌, ℕ, ◌⊎◌, ◌↔◌, ◌≤◌, ◌+◌, ◌*◌, ◌/◌, List, length, IsTrue, IfOk, IfErr, Some, MatchOption, MatchResult};
ghost use Rattle.fk_base.specs.Bytes.{IsBytes};
ghost use Rattle.fk_text.specs.Found.{bytes_in};
ghost use Rattle.fk_text.specs.Private.{IsText};
ghost use Rattle.fk_text.specs.Text.{text_of};
ghost use Rattle.fk_text.specs.TextFault.{FirstTextFault};

use crate::letter::{first_bad_byte, has_loose_bits};
use crate::{TextFault, put_into};
use base64::DecodeAllocError;
use base64::engine::general_purpose::STANDARD_NO_PAD;
use fk_base::{Bytes, NoMemory};
use std::alloc::Global;

/// The text of `bytes`.
pub fn put_text(alloc: Global, bytes: &[u8]) -> Result<Bytes, NoMemory>
    ensures { IfOk result (λ text. text ≡ text_of bytes.now) }
{
    let text = STANDARD_NO_PAD.encode(alloc, bytes)?;
    Ok(text.into_bytes().into())
}

/// The bytes whose text is `text`. Want of memory hides no fault.
pub fn take_text(alloc: Global, text: &[u8]) -> Result<Bytes, TextFault>
    ensures taken { IfOk result (λ bytes. IsBytes bytes × (text.now ≡ text_of bytes)) }
    ensures right { (bytes : List ℕ) → IsBytes bytes → text.now ≡ text_of bytes
        → MatchResult result (λ b. b ≡ bytes) (λ e. e ≡ TextFault.NoMemory) }
    ensures fault { IfErr result (λ e. (e ≡ TextFault.NoMemory) ⊎ FirstTextFault text.now e) }
    ensures refused { (e : TextFault) → FirstTextFault text.now e → result ≡ Err e }
{
    match first_text_fault(text) {
        Some(fault) => Err(fault),
        None => take_right_text(alloc, text),
    }
}

/// Whether `text` is the text of at most 64 bytes. It takes no memory.
pub fn is_text_of(text: &[u8], bytes: &[u8]) -> bool
    requires { length bytes.now ≤ 64 }
    ensures { IsTrue result ↔ (text.now ≡ text_of bytes.now) }
{
    let mut letters = [0; 86];
    let len = put_into(bytes, &mut letters);
    are_equal(text, &letters[..len])
}

/// A text has a letter for each six bits begun.
pub fn text_has_len()
    ensures { (bytes : List ℕ) → length (text_of bytes) ≡ (8 * length bytes + 5) / 6 }
{}

/// One text is of at most one list of bytes.
pub fn text_of_one_list()
    ensures { (b c : List ℕ) → IsBytes b → IsBytes c → text_of b ≡ text_of c → b ≡ c }
{}

/// Bytes are found in a text exactly where it is their text.
pub fn texts_are_found()
    ensures { (text bytes : List ℕ) → (bytes_in text ≡ Some bytes) ↔ (IsBytes bytes × (text ≡ text_of bytes)) }
{}

fn first_text_fault(text: &[u8]) -> Option<TextFault>
    ensures { MatchOption result (IsText text.now) (λ e. FirstTextFault text.now e) }
{
    if let Some(at) = first_bad_byte(text) {
        return Some(TextFault::BadByte(at));
    }
    if text.len() % 4 == 1 {
        return Some(TextFault::BadLength);
    }
    if has_loose_bits(text) {
        return Some(TextFault::LooseBits);
    }
    None
}

fn take_right_text(alloc: Global, text: &[u8]) -> Result<Bytes, TextFault>
    requires { IsText text.now }
    ensures { MatchResult result (λ bytes. IsBytes bytes × (text.now ≡ text_of bytes))
        (λ e. e ≡ TextFault.NoMemory) }
{
    match STANDARD_NO_PAD.decode(alloc, text) {
        Ok(bytes) => Ok(bytes.into()),
        Err(DecodeAllocError::OutOfMemory) => Err(TextFault::NoMemory),
        Err(DecodeAllocError::DecodeError(_)) => unreachable!(),
    }
}

fn are_equal(a: &[u8], b: &[u8]) -> bool
    ensures { IsTrue result ↔ (a.now ≡ b.now) }
{
    if a.len() != b.len() {
        return false;
    }
    let mut same = true;
    for i in 0..a.len() {
        same &= a[i] == b[i];
    }
    same
}
