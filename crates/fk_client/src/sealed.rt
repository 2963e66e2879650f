ghost use Rattle.std.proofs.Props.{props};
ghost use Rattle.std.specs.Prelude.{◌≤◌, IfSome};

use fk_base::HashKind;
use fk_mac::PreparedKeys;

/// What seals and opens packets.
#[derive(Drop)]
pub struct Sealing {
    pub keys: PreparedKeys,
    /// The hash of the digest in the plaintext.
    pub kind: HashKind,
    /// For how many seconds is asked where the request says none itself.
    pub seconds: Option<u32>,
    ghost seconds_within: { IfSome seconds (λ n. (1 ≤ n) × (n ≤ 604800)) } by { Prim.hlevel props },
}
