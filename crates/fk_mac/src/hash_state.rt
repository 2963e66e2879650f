ghost use Rattle.std.specs.Prelude.{◌≡◌, ◌++◌, ℕ, List};
ghost use Rattle.fk_base.specs.declared.hash_kind.HashKind.{HashKind};
ghost use Rattle.fk_mac.specs.Hmac.{hash_of};
ghost use Rattle.fk_mac.specs.MacKey.{HoldsMessage};
ghost use Rattle.md5.specs.Md5 as RFC1321;
ghost use Rattle.md5.specs.Md5.{md5};
ghost use Rattle.sha1.specs.Sha1 as FIPS180;
ghost use Rattle.sha1.specs.Sha1.{sha1};
ghost use Rattle.sha2.specs.Hashers.{Holds256, Holds384, Holds512};
ghost use Rattle.sha2.specs.Sha256.{sha256};
ghost use Rattle.sha2.specs.Sha512.{sha384, sha512};

use crate::MacBuf;
use fk_base::HashKind;
use md5::Md5;
use sha1::Sha1;
use sha2::{Sha256, Sha384, Sha512};

/// A hash in the midst of its message.
#[derive(Drop)]
pub(crate) enum HashState {
    OfMd5(Md5),
    OfSha1(Sha1),
    OfSha256(Sha256),
    OfSha384(Sha384),
    OfSha512(Sha512),
}

impl HashState {
    /// The hash behind a message.
    pub(crate) fn behind(kind: HashKind, message: &[u8]) -> HashState
        ensures { HoldsMessage result kind message.now }
    {
        match kind {
            HashKind::Md5 => HashState::OfMd5(md5_behind(message)),
            HashKind::Sha1 => HashState::OfSha1(sha1_behind(message)),
            HashKind::Sha256 => HashState::OfSha256(sha256_behind(message)),
            HashKind::Sha384 => HashState::OfSha384(sha384_behind(message)),
            HashKind::Sha512 => HashState::OfSha512(sha512_behind(message)),
        }
    }

    /// Leaves the hash of the message and of two pieces more in `out`; this state stays as it is.
    pub(crate) fn hash_with(&self, a: &[u8], b: &[u8], out: &mut MacBuf)
        ensures { (kind : HashKind) → (message : List ℕ) → HoldsMessage self.now kind message
            → out.new ≡ hash_of kind (message ++ (a.now ++ b.now)) }
    {
        match self {
            HashState::OfMd5(state) => out.copy_from(&md5_with(state, a, b)),
            HashState::OfSha1(state) => out.copy_from(&sha1_with(state, a, b)),
            HashState::OfSha256(state) => out.copy_from(&sha256_with(state, a, b)),
            HashState::OfSha384(state) => out.copy_from(&sha384_with(state, a, b)),
            HashState::OfSha512(state) => out.copy_from(&sha512_with(state, a, b)),
        }
    }
}

fn md5_behind(message: &[u8]) -> Md5
    ensures { RFC1321.Holds result message.now }
{
    use md5::Digest;

    let mut hasher = Md5::new();
    hasher.update(message);
    hasher
}

fn md5_with(state: &Md5, a: &[u8], b: &[u8]) -> [u8; 16]
    ensures { (message : List ℕ) → RFC1321.Holds state.now message → result ≡ md5 (message ++ (a.now ++ b.now)) }
{
    use md5::Digest;

    let mut hasher = state.clone().unwrap();
    hasher.update(a);
    hasher.update(b);
    hasher.finalize()
}

fn sha1_behind(message: &[u8]) -> Sha1
    ensures { FIPS180.Holds result message.now }
{
    let mut hasher = Sha1::new();
    hasher.update(message);
    hasher
}

fn sha1_with(state: &Sha1, a: &[u8], b: &[u8]) -> [u8; 20]
    ensures { (message : List ℕ) → FIPS180.Holds state.now message → result ≡ sha1 (message ++ (a.now ++ b.now)) }
{
    let mut hasher = state.clone().unwrap();
    hasher.update(a);
    hasher.update(b);
    hasher.finalize()
}

fn sha256_behind(message: &[u8]) -> Sha256
    ensures { Holds256 result message.now }
{
    use sha2::Digest;

    let mut hasher = Sha256::new();
    hasher.update(message);
    hasher
}

fn sha256_with(state: &Sha256, a: &[u8], b: &[u8]) -> [u8; 32]
    ensures { (message : List ℕ) → Holds256 state.now message → result ≡ sha256 (message ++ (a.now ++ b.now)) }
{
    use sha2::Digest;

    let mut hasher = state.clone().unwrap();
    hasher.update(a);
    hasher.update(b);
    hasher.finalize()
}

fn sha384_behind(message: &[u8]) -> Sha384
    ensures { Holds384 result message.now }
{
    use sha2::Digest;

    let mut hasher = Sha384::new();
    hasher.update(message);
    hasher
}

fn sha384_with(state: &Sha384, a: &[u8], b: &[u8]) -> [u8; 48]
    ensures { (message : List ℕ) → Holds384 state.now message → result ≡ sha384 (message ++ (a.now ++ b.now)) }
{
    use sha2::Digest;

    let mut hasher = state.clone().unwrap();
    hasher.update(a);
    hasher.update(b);
    hasher.finalize()
}

fn sha512_behind(message: &[u8]) -> Sha512
    ensures { Holds512 result message.now }
{
    use sha2::Digest;

    let mut hasher = Sha512::new();
    hasher.update(message);
    hasher
}

fn sha512_with(state: &Sha512, a: &[u8], b: &[u8]) -> [u8; 64]
    ensures { (message : List ℕ) → Holds512 state.now message → result ≡ sha512 (message ++ (a.now ++ b.now)) }
{
    use sha2::Digest;

    let mut hasher = state.clone().unwrap();
    hasher.update(a);
    hasher.update(b);
    hasher.finalize()
}
