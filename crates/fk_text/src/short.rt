ghost use Rattle.std.specs.Prelude.{◌≡◌, ◌+◌, ◌*◌, ◌/◌, ◌≤◌, length, take, MatchOption, None, Some};
ghost use Rattle.fk_text.specs.Found.{bytes_in};
ghost use Rattle.fk_text.specs.Text.{text_of};
ghost use Rattle.fk_base.specs.Bytes.{IsBytes};

use base64::engine::general_purpose::STANDARD_NO_PAD;
use std::marker::Model;

/// Up to 192 bytes, those of 256 letters. They take no memory.
#[derive(Drop)]
pub struct ShortBytes {
    bytes: [u8; 192],
    len: usize,
}

impl Model for ShortBytes {
    ghost use Rattle.std.specs.Prelude.{List, ℕ, ◌≤◌, take};

    ghost Value = { List ℕ };

    ghost view = { λ b. take b.len b.bytes };

    ghost invariant = { λ b. b.len ≤ 192 };
}

impl ShortBytes {
    pub fn as_slice(&self) -> &[u8]
        ensures { result.now ≡ self.now }
    {
        &self.bytes[..self.len]
    }
}

/// The bytes whose text is a short one, or `None` where it is no text.
pub fn take_short(text: &[u8]) -> Option<ShortBytes>
    requires { length text.now ≤ 256 }
    ensures { MatchOption result (bytes_in text.now ≡ None) (λ bytes. bytes_in text.now ≡ Some bytes) }
{
    let mut bytes = [0; 192];
    let len = take_into(text, &mut bytes)?;
    Some(ShortBytes { bytes, len })
}

/// Leaves the bytes whose text is `text` at the front of `room`, and answers how many they are, or `None` where it is no text.
/// It takes no memory.
pub fn take_into(text: &[u8], room: &mut [u8]) -> Option<usize>
    requires { (length text.now + 3) / 4 * 3 ≤ length room.old }
    ensures { MatchOption result (bytes_in text.now ≡ None) (λ len. (len ≤ length room.new) × (bytes_in text.now ≡ Some (take len room.new))) }
{
    match STANDARD_NO_PAD.decode_slice_unchecked(text, room) {
        Ok(len) => {
            are_bytes(&room[..len]);
            Some(len)
        }
        Err(_) => None,
    }
}

/// Leaves the text of `bytes` at the front of `room`, and answers how many letters it has. It takes no memory.
pub fn put_into(bytes: &[u8], room: &mut [u8]) -> usize
    requires { (8 * length bytes.now + 5) / 6 ≤ length room.old }
    ensures { (result ≤ length room.new) × (take result room.new ≡ text_of bytes.now) }
{
    match STANDARD_NO_PAD.encode_slice(bytes, room) {
        Ok(len) => len,
        Err(_) => unreachable!(),
    }
}

/// What a slice of `u8` holds is bytes.
fn are_bytes(bytes: &[u8])
    ensures { IsBytes bytes.now }
{
    let _ = bytes;
}
