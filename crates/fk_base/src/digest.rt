/// A SHA-256 digest (FIPS 180-4), by which a datagram is known again.
#[derive(Clone, Copy, Debug, PartialEq, Eq)]
pub struct Digest(pub [u8; 32]);
