ghost use Rattle.std.specs.Prelude.{◌≤◌, length};

use crate::{Bytes, HashKind};

/// The two keys that a packet is sealed and authenticated under, each of 1 to 128 bytes, and the hash of its HMAC.
#[derive(Drop)]
pub struct Keys {
    pub key: Bytes,
    pub kind: HashKind,
    pub mac_key: Bytes,
    ghost has_key: { 1 ≤ length key },
    ghost short_key: { length key ≤ 128 },
    ghost has_mac_key: { 1 ≤ length mac_key },
    ghost short_mac_key: { length mac_key ≤ 128 },
}
