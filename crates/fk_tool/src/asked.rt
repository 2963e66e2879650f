ghost use Rattle.std.proofs.Props.{props};
ghost use Rattle.std.specs.Prelude.{◌≡◌, ◌≤◌, IfSome, true};
ghost use Rattle.fk_fields.specs.FieldText.{is_user};

use fk_base::{Ip4, Pairs};
use fk_fields::Rand;

/// What a line asks to be packed.
#[derive(Drop)]
pub(crate) struct EncodeLine<'a> {
    pub(crate) rand: Rand,
    pub(crate) user: &'a [u8],
    pub(crate) stamp: u64,
    pub(crate) ip: Ip4,
    pub(crate) pairs: Pairs,
    /// For how many seconds, where the line says so.
    pub(crate) seconds: Option<u32>,
    ghost user_is_right: { is_user user.now ≡ true },
    ghost stamp_within: { stamp ≤ 999999999999 },
    ghost seconds_within: { IfSome seconds (λ n. (1 ≤ n) × (n ≤ 604800)) } by { Prim.hlevel props },
}
