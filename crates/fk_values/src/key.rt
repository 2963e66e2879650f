ghost use Rattle.std.specs.Prelude.{◌≡◌, ◌≤◌, IfOk, IfSome, None, Ok, Some, is_some, length};
ghost use Rattle.fk_values.specs.Given.{said_by};
ghost use Rattle.fk_values.specs.KeyOf.{key_by};
ghost use Rattle.fk_values.specs.Values.{base64_key_in, key_in, without_padding};

use fk_base::{Bytes, NoMemory};
use fk_lines::{Line, without_last};
use fk_text::take_short;
use std::alloc::Global;

/// More letters than any key has.
const MOST_LETTERS: usize = 256;

/// The most bytes of a key.
pub const KEY_LIMIT: usize = 128;

/// Whether the value is a key, byte by byte.
pub fn is_key(value: &[u8]) -> bool
    ensures { result ≡ is_some (key_in value.now) }
{
    !value.is_empty() && value.len() <= KEY_LIMIT
}

/// Whether the value is a key's base64, with up to two `=` at its end.
pub fn is_base64_key(value: &[u8]) -> bool
    ensures { result ≡ is_some (base64_key_in value.now) }
{
    let text = without_padding(value);
    if text.len() > MOST_LETTERS {
        return false;
    }
    match take_short(text) {
        Some(key) => is_key(key.as_slice()),
        None => false,
    }
}

/// The key that the value is, byte by byte.
pub fn take_key(alloc: Global, value: &[u8]) -> Result<Option<Bytes>, NoMemory>
    ensures key { IfOk result (λ key. key ≡ key_in value.now) }
    ensures bounds { IfOk result (λ key. IfSome key (λ k. (1 ≤ length k) × (length k ≤ KEY_LIMIT))) }
    // What is no key is told without memory.
    ensures refused { key_in value.now ≡ None → result ≡ Ok None }
{
    if value.is_empty() || value.len() > KEY_LIMIT {
        return Ok(None);
    }
    Ok(Some(Bytes::copy(alloc, value)?))
}

/// The key whose base64 the value is, with up to two `=` at its end.
pub fn take_base64_key(alloc: Global, value: &[u8]) -> Result<Option<Bytes>, NoMemory>
    ensures key { IfOk result (λ key. key ≡ base64_key_in value.now) }
    ensures bounds { IfOk result (λ key. IfSome key (λ k. (1 ≤ length k) × (length k ≤ KEY_LIMIT))) }
    // What is no key is told without memory.
    ensures refused { base64_key_in value.now ≡ None → result ≡ Ok None }
{
    let text = without_padding(value);
    if text.len() > MOST_LETTERS {
        return Ok(None);
    }
    match take_short(text) {
        Some(key) => take_key(alloc, key.as_slice()),
        None => Ok(None),
    }
}

/// The key that a line gives, in base64 under this name.
pub fn take_key_of(
    alloc: Global,
    line: Line<'_>,
    base64_name: &[u8],
) -> Result<Option<Bytes>, NoMemory>
    ensures key { IfOk result (λ key. key ≡ key_by base64_name.now (said_by line.entry)) }
    ensures bounds { IfOk result (λ key. IfSome key (λ k. (1 ≤ length k) × (length k ≤ KEY_LIMIT))) }
    // What is no key is told without memory.
    ensures refused { key_by base64_name.now (said_by line.entry) ≡ None → result ≡ Ok None }
{
    if base64_name == line.name {
        take_base64_key(alloc, line.value)
    } else {
        take_key(alloc, line.value)
    }
}

/// The text without up to two `=` at its end.
fn without_padding(text: &[u8]) -> &[u8]
    ensures { result.now ≡ without_padding text.now }
{
    without_last(without_last(text, b'='), b'=')
}
