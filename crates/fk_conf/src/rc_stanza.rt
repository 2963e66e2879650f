ghost use Rattle.std.specs.Prelude.{◌≡◌, ◌≤◌, length, true};
ghost use Rattle.std.specs.Option.{ForSome};
ghost use Rattle.fk_fields.specs.FieldText.{is_user};
ghost use Rattle.fk_values.specs.Values.{is_host};
ghost use Rattle.fk_base.specs.declared.moment.TheConstants.{LONGEST_TIME};

use fk_base::{Bytes, HashKind, Ip4, Pairs};

/// What one stanza of the client's file sets.
#[derive(Drop)]
pub struct RcStanza {
    /// The number of the line that begins it, counted from 1.
    pub line: u32,
    /// 1 to 64 bytes.
    pub name: Bytes,
    /// 1 to 255 bytes without a blank.
    pub server: Option<Bytes>,
    pub port: Option<u16>,
    pub pairs: Option<Pairs>,
    /// The address to ask for; 0.0.0.0 is the one that the packet comes from.
    pub allow: Option<Ip4>,
    /// 1 to 128 bytes.
    pub key: Option<Bytes>,
    /// 1 to 128 bytes.
    pub mac_key: Option<Bytes>,
    /// The hash of the HMAC.
    pub mac_kind: Option<HashKind>,
    /// The hash of the digest in the plaintext.
    pub kind: Option<HashKind>,
    /// How long to ask for, in seconds: 1 to 604800.
    pub timeout: Option<u32>,
    /// 1 to 64 bytes from 0x20 to 0x7e.
    pub user: Option<Bytes>,
    ghost name_within: { (1 ≤ length name) × (length name ≤ 64) },
    ghost server_is_host: { ForSome server (λ s. is_host s ≡ true) },
    ghost has_port: { ForSome port (λ p. 1 ≤ p) },
    ghost key_within: { ForSome key (λ k. (1 ≤ length k) × (length k ≤ 128)) },
    ghost mac_key_within: { ForSome mac_key (λ k. (1 ≤ length k) × (length k ≤ 128)) },
    ghost timeout_within: { ForSome timeout (λ t. (1 ≤ t) × (t ≤ LONGEST_TIME)) },
    ghost user_is_right: { ForSome user (λ u. is_user u ≡ true) },
}
