ghost use Rattle.std.specs.Prelude.{◌≡◌, true};
ghost use Rattle.fk_fields.specs.FieldText.{is_user};
ghost use Rattle.fk_fields.specs.Fields.{has_timeout};

use fk_base::{Bytes, HashKind, Keys};
use fk_fields::Ask;

/// What a packet is made of, and where it goes.
#[derive(Drop)]
pub struct Settings {
    /// The address or the name of the server's host; empty where nothing is sent and none is given.
    pub server: Bytes,
    pub port: u16,
    pub ask: Ask,
    pub keys: Keys,
    /// The hash of the digest in the plaintext.
    pub kind: HashKind,
    /// 1 to 64 bytes from 0x20 to 0x7e.
    pub user: Bytes,
    ghost user_is_right: { is_user user ≡ true },
    ghost ask_is_right: { has_timeout ask ≡ true },
}
