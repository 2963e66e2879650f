//! New keys, as both files take them.
ghost use Rattle.std.specs.Prelude.{◌≡◌, IfOk, drop, take};
ghost use Rattle.fk_log.specs.Printing.{sink_by};
ghost use Rattle.fk_client.specs.ClientText.{keys_text, padded_text, padding_of};
ghost use Rattle.fk_client.specs.Outside.{entropy_by};
ghost use Rattle.fk_client.specs.Running.{MakesKeys};

use crate::refusal::{Refusal, refuse};
use fk_base::{Bytes, Failed, NoMemory, Status};
use fk_host::{Entropy, Sink};
use fk_program::show_text;
use fk_text::put_text;
use std::alloc::Global;

/// How many random bytes new keys take: 32 for the cipher and 64 for the HMAC.
const KEYS_BYTES: usize = 96;

/// How many of them are the cipher's.
const CIPHER_KEY_BYTES: usize = 32;

/// Draws new keys and prints their two lines. What it takes of memory it takes before it prints.
pub fn make_keys<N: Entropy, K: Sink>(alloc: Global, entropy: &mut N, out: &mut K) -> Status
    ensures { let from = entropy_by N.Entropy in let at = sink_by K.Sink in
        MakesKeys (from entropy.old) (from entropy.new) (at out.old) (at out.new) result }
{
    let mut drawn = [0; KEYS_BYTES];
    if let Err(Failed) = entropy.fill(&mut drawn) {
        return refuse(Refusal::Entropy, out);
    }
    match keys_text(alloc, &drawn) {
        Ok(text) => show_text(text.as_slice(), out),
        Err(NoMemory) => fk_program::refuse(fk_program::Refusal::NoMemory, out),
    }
}

fn keys_text(alloc: Global, drawn: &[u8; KEYS_BYTES]) -> Result<Bytes, NoMemory>
    ensures { IfOk result (λ text. text ≡ keys_text drawn.now) }
{
    let key = padded_text(alloc, cipher_key(drawn))?;
    let mac_key = padded_text(alloc, hmac_key(drawn))?;
    let mut text = Bytes::copy(alloc, b"KEY_BASE64: ")?;
    text.append(key.as_slice())?;
    text.append(b"\nHMAC_KEY_BASE64: ")?;
    text.append(mac_key.as_slice())?;
    text.append(b"\n")?;
    Ok(text)
}

fn cipher_key(drawn: &[u8; KEYS_BYTES]) -> &[u8]
    ensures { result.now ≡ take 32 drawn.now }
{
    &drawn[..CIPHER_KEY_BYTES]
}

fn hmac_key(drawn: &[u8; KEYS_BYTES]) -> &[u8]
    ensures { result.now ≡ drop 32 drawn.now }
{
    &drawn[CIPHER_KEY_BYTES..]
}

/// Base64 with its padding.
fn padded_text(alloc: Global, bytes: &[u8]) -> Result<Bytes, NoMemory>
    ensures { IfOk result (λ text. text ≡ padded_text bytes.now) }
{
    let mut text = put_text(alloc, bytes)?;
    text.append(padding_of(bytes.len()))?;
    Ok(text)
}

/// What fills the last four letters of the text of so many bytes.
fn padding_of(count: usize) -> &'static [u8]
    ensures { result.now ≡ padding_of count }
{
    match count % 3 {
        0 => b"",
        1 => b"==",
        _ => b"=",
    }
}
