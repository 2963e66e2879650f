ghost use Rattle.std.specs.Prelude.{◌≡◌, ◌↔◌, ◌++◌, ℕ, List, length, IsTrue};
ghost use Rattle.fk_base.specs.HashKind.{hash_len, text_len};
ghost use Rattle.fk_text.specs.Text.{text_of};
ghost use Rattle.fk_mac.specs.Hmac.{hash_of, hmac, mac_text};

use crate::{MacBuf, MacKey};
use fk_base::HashKind;

/// Leaves the HMAC of `head` and then `tail` in `out`.
pub fn mac(kind: HashKind, key: &[u8], head: &[u8], tail: &[u8], out: &mut MacBuf)
    ensures { out.new ≡ hmac kind key.now (head.now ++ tail.now) }
{
    MacKey::new(kind, key).mac(head, tail, out);
}

/// Whether `text` is the HMAC of `head` and then `tail` as unpadded base64.
pub fn verify(kind: HashKind, key: &[u8], head: &[u8], tail: &[u8], text: &[u8]) -> bool
    ensures { IsTrue result ↔ (text.now ≡ mac_text kind key.now (head.now ++ tail.now)) }
{
    MacKey::new(kind, key).verify(head, tail, text)
}

/// How long each hash, each HMAC and their texts are.
pub fn codes_have_len()
    ensures hash { (kind : HashKind) → (message : List ℕ)
        → length (hash_of kind message) ≡ hash_len kind }
    ensures hash_text { (kind : HashKind) → (message : List ℕ)
        → length (text_of (hash_of kind message)) ≡ text_len kind }
    ensures mac { (kind : HashKind) → (key message : List ℕ)
        → length (hmac kind key message) ≡ hash_len kind }
    ensures mac_text { (kind : HashKind) → (key message : List ℕ)
        → length (mac_text kind key message) ≡ text_len kind }
{}
