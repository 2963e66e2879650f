ghost use Rattle.std.specs.Prelude.{◌≡◌};
ghost use Rattle.fk_mac.specs.Hmac.{hash_of, packet_digest};

use crate::MacBuf;
use crate::hash_state::HashState;
use fk_base::{Digest, HashKind};
use sha2::Sha256;

/// Leaves the hash of `message` in `out`.
pub fn hash(kind: HashKind, message: &[u8], out: &mut MacBuf)
    ensures { out.new ≡ hash_of kind message.now }
{
    HashState::behind(kind, message).hash_with(&[], &[], out);
}

/// The SHA-256 of a datagram.
pub fn packet_digest(datagram: &[u8]) -> Digest
    ensures { result.0 ≡ packet_digest datagram.now }
{
    Digest(<Sha256 as sha2::Digest>::digest(datagram))
}
