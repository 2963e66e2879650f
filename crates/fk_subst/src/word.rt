ghost use Rattle.std.specs.Prelude.{◌≡◌, ◌≢◌, ℕ, ◌∷◌, IfOk, List, [], false, true, drop, MatchOption};
ghost use Rattle.fk_subst.specs.Template.{BeginsWith, AreWordPieces};
ghost use Rattle.fk_subst.specs.CommandFault.{begins_unknown};
ghost use Rattle.fk_subst.specs.declared.piece.Piece.{Piece};
ghost use Rattle.fk_subst.specs.declared.piece.Piece.TheVariants.{Name};

use crate::scan::{name_front, plain_front};
use crate::variable::var_named;
use crate::{Piece, Var};
use fk_base::{Bytes, NoMemory};
use std::alloc::Global;
use std::marker::Model;

/// A word of a template: the pieces that it is joined of.
#[derive(Drop)]
pub(crate) struct Word {
    pieces: Vec<Piece>,
}

impl Model for Word {
    ghost use Rattle.std.specs.Prelude.{List};
    ghost use Rattle.fk_subst.specs.declared.piece.Piece.{Piece};

    ghost Value = { List Piece };

    ghost view = { λ w. w.pieces.items };
}

impl Word {
    pub(crate) fn pieces(&self) -> &[Piece]
        ensures { result.now ≡ self.now }
    {
        &self.pieces
    }
}

/// Cuts a word of which each `$` begins a name.
pub(crate) fn cut_word(alloc: Global, word: &[u8]) -> Result<Word, NoMemory>
    requires { (place : ℕ) → begins_unknown (drop place word.now) ≡ false }
    ensures { IfOk result (λ pieces. AreWordPieces pieces word.now) }
{
    let mut pieces = Vec::new(alloc);
    let mut rest = word;
    while !rest.is_empty() {
        let (piece, behind) = first_piece(alloc, rest)?;
        pieces.push(piece)?;
        rest = behind;
    }
    Ok(Word { pieces })
}

/// The piece that the text begins with, and what stands behind it.
fn first_piece(alloc: Global, text: &[u8]) -> Result<(Piece, &[u8]), NoMemory>
    requires some { text.now ≢ [] }
    requires known { begins_unknown text.now ≡ false }
    ensures { IfOk result (λ first. BeginsWith first.0 text.now first.1.now) }
{
    if let Some((var, behind)) = first_name(text) {
        return Ok((Piece::Name(var), behind));
    }
    let (plain, behind) = plain_front(text);
    Ok((Piece::Plain(Bytes::copy(alloc, plain)?), behind))
}

/// What the name stands for that the text begins with, and what stands behind it.
fn first_name(text: &[u8]) -> Option<(Var, &[u8])>
    ensures { MatchOption result
        ((more : List ℕ) → text.now ≡ 36 ∷ more → begins_unknown text.now ≡ true)
        (λ first. BeginsWith (Name first.0) text.now first.1.now) }
{
    match text.split_first() {
        Some((b'$', more)) => {
            let (name, behind) = name_front(more);
            Some((var_named(name)?, behind))
        }
        _ => None,
    }
}
