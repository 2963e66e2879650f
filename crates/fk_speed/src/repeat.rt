ghost use Rattle.std.specs.Prelude.{◌≡◌, ◌<◌, [], ◌++◌};
ghost use Rattle.std.specs.Fn.{iterate};
ghost use Rattle.fk_aes.specs.Cipher.{cipher, decipher};
ghost use Rattle.fk_mac.specs.Hmac.{hmac};
ghost use Rattle.md5.specs.Md5.{md5};
ghost use Rattle.sha2.specs.Sha256.{sha256};

use fk_aes::Key256;
use fk_base::{HashKind, Steps};
use fk_mac::{MacBuf, MacKey, mac};
use md5::Md5;
use sha2::Sha256;
use std::sync::ledger::{Blank, Ledger};

/// The key of the example of FIPS 197, appendix C.3.
const KEY: [u8; 32] =
    *b"\x00\x01\x02\x03\x04\x05\x06\x07\x08\x09\x0a\x0b\x0c\x0d\x0e\x0f\x10\x11\x12\x13\x14\x15\x16\x17\x18\x19\x1a\x1b\x1c\x1d\x1e\x1f";

/// The block of that example.
const BLOCK: [u8; 16] = *b"\x00\x11\x22\x33\x44\x55\x66\x77\x88\x99\xaa\xbb\xcc\xdd\xee\xff";

/// Behind the 32 bytes of a code it makes a message of 200 bytes, whose HMAC by SHA-256 takes 5 and 2 blocks of the hash.
const BEHIND_CODE: [u8; 168] = [0; 168];

/// Behind the 32 bytes of a digest it makes a message of 7 blocks of SHA-256, the padding included.
const BEHIND_DIGEST: [u8; 407] = [0; 407];

/// What stands in the place of a digest at first.
const START: [u8; 32] = [0; 32];

/// What stands in the place of a digest of MD5 at first: a message of one block, the padding included.
const SHORT_START: [u8; 16] = [0; 16];

/// What the cipher makes of the block when it is applied so often.
pub fn encrypted(count: u64) -> [u8; 16]
    ensures { result ≡ iterate (cipher KEY) count BLOCK }
{
    let key = Key256::new(KEY);
    let mut block = BLOCK;
    for _ in 0..count {
        key.encrypt(&mut block);
    }
    block
}

/// What the inverse cipher makes of the block when it is applied so often.
pub fn decrypted<L: Ledger>(blank: Blank, count: u64) -> [u8; 16]
    requires name { blank.name ≡ L.name }
    requires parts { blank.parts ≡ L.parts }
    requires some { 0 < L.parts }
    ensures { result ≡ iterate (decipher KEY) count BLOCK }
{
    let key = Key256::new(KEY);
    let mut steps: Steps<L> = Steps::new(blank);
    let mut block = BLOCK;
    for _ in 0..count {
        key.decrypt(&mut block, &mut steps);
    }
    block
}

/// The last of so many HMACs by SHA-256, each over the one before and 168 zeros.
pub fn last_mac(count: u64) -> MacBuf
    ensures { result ≡ iterate (λ code. hmac HashKind.Sha256 KEY (code ++ BEHIND_CODE)) count [] }
{
    let mut code = MacBuf::new();
    for _ in 0..count {
        let mut next = MacBuf::new();
        mac(
            HashKind::Sha256,
            &KEY,
            code.as_slice(),
            &BEHIND_CODE,
            &mut next,
        );
        code = next;
    }
    code
}

/// The same by a key that is prepared once.
pub fn last_keyed_mac(count: u64) -> MacBuf
    ensures { result ≡ iterate (λ code. hmac HashKind.Sha256 KEY (code ++ BEHIND_CODE)) count [] }
{
    let key = MacKey::new(HashKind::Sha256, &KEY);
    let mut code = MacBuf::new();
    for _ in 0..count {
        let mut next = MacBuf::new();
        key.mac(code.as_slice(), &BEHIND_CODE, &mut next);
        code = next;
    }
    code
}

/// The last of so many SHA-256 digests, each over the one before, at first 32 zeros, and 407 zeros.
pub fn last_digest(count: u64) -> [u8; 32]
    ensures { result ≡ iterate (λ digest. sha256 (digest ++ BEHIND_DIGEST)) count START }
{
    let mut digest = START;
    for _ in 0..count {
        digest = digest_of(&digest, &BEHIND_DIGEST);
    }
    digest
}

fn digest_of(front: &[u8], rest: &[u8]) -> [u8; 32]
    ensures { result ≡ sha256 (front.now ++ rest.now) }
{
    use sha2::Digest;
    let mut hasher = Sha256::new();
    hasher.update(front);
    hasher.update(rest);
    hasher.finalize()
}

/// The last of so many MD5 digests, each over the one before, at first 16 zeros.
pub fn last_md5(count: u64) -> [u8; 16]
    ensures { result ≡ iterate md5 count SHORT_START }
{
    let mut digest = SHORT_START;
    for _ in 0..count {
        digest = md5_of(&digest);
    }
    digest
}

fn md5_of(message: &[u8]) -> [u8; 16]
    ensures { result ≡ md5 message.now }
{
    use md5::Digest;
    let mut hasher = Md5::new();
    hasher.update(message);
    hasher.finalize()
}
