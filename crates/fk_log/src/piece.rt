use fk_base::{Ip4, Pair, Words};

/// A piece of a line.
#[derive(Clone, Copy)]
pub enum Piece<'a> {
    Text(&'a [u8]),
    Number(u64),
    Address(Ip4),
    Port(Pair),
    Command(&'a Words),
}
