ghost use Rattle.std.specs.Prelude.{◌≡◌, ◌↔◌, IsTrue, MatchResult, None, Some};
ghost use Rattle.fk_base.specs.FirstFailed.{first_failed};
ghost use Rattle.fk_base.specs.HashKind.{kind_by_len};
ghost use Rattle.fk_codec.specs.DecodeFault.{digest_tests};
ghost use Rattle.fk_codec.specs.Spells.{digest_text};
ghost use Rattle.std.specs.Prelude.{length};

use crate::DecodeFault;
use fk_base::HashKind;
use fk_mac::{MacBuf, hash};
use fk_text::is_text_of;

/// The hash that a digest names by its length, where the digest is that of the front.
pub(crate) fn read_digest(front: &[u8], digest: &[u8]) -> Result<HashKind, DecodeFault>
    ensures { MatchResult result
        (λ kind. (first_failed (digest_tests front.now digest.now) ≡ None) × (kind_by_len (length digest.now) ≡ Some kind))
        (λ fault. first_failed (digest_tests front.now digest.now) ≡ Some fault) }
{
    let Some(kind) = kind_by_len(digest.len()) else {
        return Err(DecodeFault::DigestLength);
    };
    if !is_digest_of(kind, front, digest) {
        return Err(DecodeFault::DigestDiffers);
    }
    Ok(kind)
}

fn kind_by_len(len: usize) -> Option<HashKind>
    ensures { result ≡ kind_by_len len }
{
    match len {
        22 => Some(HashKind::Md5),
        27 => Some(HashKind::Sha1),
        43 => Some(HashKind::Sha256),
        64 => Some(HashKind::Sha384),
        86 => Some(HashKind::Sha512),
        _ => None,
    }
}

fn is_digest_of(kind: HashKind, front: &[u8], digest: &[u8]) -> bool
    ensures { IsTrue result ↔ (digest.now ≡ digest_text kind front.now) }
{
    let mut hashed = MacBuf::new();
    hash(kind, front, &mut hashed);
    is_text_of(digest, hashed.as_slice())
}
