ghost use Rattle.std.specs.Prelude.{◌≡◌, ◌<◌, ◌==◌, [], ◌∷◌, length, IfSome, MatchOption};
ghost use Rattle.std.specs.List.{position};
ghost use Rattle.fk_base.specs.Parts.{parts_at};

use std::marker::Model;

/// The parts of a text that are left, as they stand between separators.
#[derive(Drop)]
pub struct Parts<'a> {
    separator: u8,
    rest: Option<&'a [u8]>,
}

impl<'a> Model for Parts<'a> {
    ghost use Rattle.std.specs.Prelude.{List, ℕ};
    ghost use Rattle.fk_base.specs.Parts.{parts_left};

    ghost Value = { List (List ℕ) };

    ghost view = { λ p. parts_left p.separator p.rest };
}

impl<'a> Parts<'a> {
    /// The parts of a text that is cut at each separator.
    pub fn new(text: &'a [u8], separator: u8) -> Self
        ensures { result ≡ parts_at separator text.now }
    {
        Parts {
            separator,
            rest: Some(text),
        }
    }

    /// Takes the next part.
    pub fn next(&mut self) -> Option<&'a [u8]>
        ensures { MatchOption result ((self.old ≡ []) × (self.new ≡ [])) (λ part. self.old ≡ part.now ∷ self.new) }
    {
        let text = self.rest?;
        match cut(text, self.separator) {
            Some((part, behind)) => {
                self.rest = Some(behind);
                Some(part)
            }
            None => {
                self.rest = None;
                Some(text)
            }
        }
    }
}

/// What stands before the first such byte and what stands behind it, or `None` where there is none.
fn cut(text: &[u8], separator: u8) -> Option<(&[u8], &[u8])>
    ensures { MatchOption result (parts_at separator text.now ≡ text.now ∷ [])
        (λ halves. parts_at separator text.now ≡ halves.0.now ∷ parts_at separator halves.1.now) }
{
    let at = first_place(text, separator)?;
    Some((&text[..at], &text[at + 1..]))
}

fn first_place(text: &[u8], byte: u8) -> Option<usize>
    ensures place { result ≡ position (λ b. b == byte) text.now }
    ensures inside { IfSome result (λ at. at < length text.now) }
{
    text.iter().position(|b| *b == byte)
}
