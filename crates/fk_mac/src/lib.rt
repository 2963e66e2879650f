//! The five hashes and HMAC (RFC 2104) over them, as bytes and as unpadded base64.
//!
//! A MAC's message is given in two pieces, so that nobody has to copy them together. No call takes memory but to
//! append a text. A key that is used again and again is prepared once, as a `MacKey`, and a pair of keys as `PreparedKeys`; none is made
//! here.
//!
//! Start at `MacKey`; what a hash and an HMAC are stands in `specs/Hmac.antt`.
#![tactic(auto)]

mod hash_state;
mod hashes;
mod hmac;
mod mac_buf;
mod mac_key;
mod prepared_keys;

pub use hashes::{hash, packet_digest};
pub use hmac::{codes_have_len, mac, verify};
pub use mac_buf::MacBuf;
pub use mac_key::MacKey;
pub use prepared_keys::PreparedKeys;
