ghost use Rattle.std.specs.Prelude.{◌≡◌, ◌↔◌, ◌++◌, ◌-◌, ◌≤◌, ℕ, List, length, take, replicate, IsTrue};
ghost use Rattle.fk_base.specs.declared.hash_kind.HashKind.{HashKind};
ghost use Rattle.fk_mac.specs.Hmac.{block_key, block_len, hmac, mac_text, masked};
ghost use Rattle.fk_mac.specs.MacKey.{IsMacKey};

use crate::MacBuf;
use crate::hash_state::HashState;
use crate::hashes::hash;
use fk_base::HashKind;
use fk_text::is_text_of;

const INNER_PAD: u8 = 0x36;

const OUTER_PAD: u8 = 0x5c;

/// A key prepared once for many HMACs: the hash behind each of the two pads (RFC 2104, section 4).
#[derive(Drop)]
pub struct MacKey {
    inner: HashState,
    outer: HashState,
}

impl MacKey {
    pub fn new(kind: HashKind, key: &[u8]) -> MacKey
        ensures { IsMacKey result kind key.now }
    {
        let block = block_key(kind, key);
        let len = block_len(kind);
        let inside = masked(&block, INNER_PAD);
        let outside = masked(&block, OUTER_PAD);
        MacKey {
            inner: HashState::behind(kind, &inside[..len]),
            outer: HashState::behind(kind, &outside[..len]),
        }
    }

    /// Leaves the HMAC of `head` and then `tail` in `out`.
    pub fn mac(&self, head: &[u8], tail: &[u8], out: &mut MacBuf)
        ensures { (kind : HashKind) → (key : List ℕ) → IsMacKey self.now kind key
            → out.new ≡ hmac kind key (head.now ++ tail.now) }
    {
        let mut inner = MacBuf::new();
        self.inner.hash_with(head, tail, &mut inner);
        self.outer.hash_with(inner.as_slice(), &[], out);
    }

    /// Whether `text` is the HMAC of `head` and then `tail` as unpadded base64.
    pub fn verify(&self, head: &[u8], tail: &[u8], text: &[u8]) -> bool
        ensures { (kind : HashKind) → (key : List ℕ) → IsMacKey self.now kind key
            → IsTrue result ↔ (text.now ≡ mac_text kind key (head.now ++ tail.now)) }
    {
        let mut out = MacBuf::new();
        self.mac(head, tail, &mut out);
        is_text_of(text, out.as_slice())
    }
}

fn block_len(kind: HashKind) -> usize
    ensures { result ≡ block_len kind }
{
    match kind {
        HashKind::Md5 | HashKind::Sha1 | HashKind::Sha256 => 64,
        HashKind::Sha384 | HashKind::Sha512 => 128,
    }
}

// The key filled with zeros to a block, or its hash where it is longer than that. Zeros follow the block.
fn block_key(kind: HashKind, key: &[u8]) -> [u8; 128]
    ensures { take (block_len kind) result ≡ block_key kind key.now }
{
    if key.len() > block_len(kind) {
        let mut short = MacBuf::new();
        hash(kind, key, &mut short);
        return zero_filled(short.as_slice());
    }
    zero_filled(key)
}

fn zero_filled(bytes: &[u8]) -> [u8; 128]
    requires { length bytes.now ≤ 128 }
    ensures { result ≡ bytes.now ++ replicate (128 - length bytes.now) 0 }
{
    let mut block = [0; 128];
    block[..bytes.len()].copy_from_slice(bytes);
    block
}

fn masked(block: &[u8; 128], pad: u8) -> [u8; 128]
    ensures { result ≡ masked pad block.now }
{
    let mut bytes = [0; 128];
    for i in 0..128 {
        bytes[i] = block[i] ^ pad;
    }
    bytes
}
