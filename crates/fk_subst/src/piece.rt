use crate::Var;
use fk_base::Bytes;

/// A part of a word of a template.
#[derive(Drop)]
pub enum Piece {
    /// Bytes that stand for themselves.
    Plain(Bytes),
    Name(Var),
}
