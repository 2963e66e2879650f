ghost use Rattle.std.specs.Prelude.{◌≡◌, ◌<◌, ◌≤◌, ◌+◌, [], ◌∷◌, length, IfNone, IfSome, IfOk, IfErr, true};
ghost use Rattle.std.specs.List.{list_all};
ghost use Rattle.fk_base.specs.Characters.{is_line_byte};
ghost use Rattle.fk_lines.specs.Lines.{lines_from, lines_of, raw_lines, reading_of};
ghost use Rattle.fk_lines.specs.Cursor.{said, faulty};

use crate::LineFault;
use crate::cut::cut_line;
use crate::line::{bare_line, is_skipped, read_line};
use fk_base::FILE_LIMIT;
use std::marker::Model;

/// A line that sets something: its number, counted from 1, and its name and value, which are parts of the text.
#[derive(Clone, Copy)]
pub struct Line<'a> {
    pub number: u32,
    pub name: &'a [u8],
    pub value: &'a [u8],
}

/// The lines of a text, one after the other. Empty lines and comments are left out.
#[derive(Drop)]
pub struct Lines<'a> {
    rest: &'a [u8],
    number: u32,
}

impl<'a> Model for Lines<'a> {
    ghost use Rattle.std.specs.Prelude.{◌+◌, ◌≤◌, length};
    ghost use Rattle.fk_lines.specs.Lines.{lines_from, raw_lines};
    ghost use Rattle.fk_lines.specs.Cursor.{Cursor};
    ghost use Rattle.fk_base.specs.declared.file.TheConstants.{FILE_LIMIT};

    ghost Value = { Cursor };

    ghost view = { λ l. record { number = l.number; left = lines_from (l.number + 1) (raw_lines l.rest.now) } };

    ghost invariant = { λ l. l.number + length l.rest.now ≤ FILE_LIMIT };
}

impl<'a> Lines<'a> {
    pub fn new(text: &'a [u8]) -> Self
        requires { length text.now ≤ FILE_LIMIT }
        ensures { result ≡ record { number = 0; left = lines_of text.now } }
    {
        Lines {
            rest: text,
            number: 0,
        }
    }

    /// The number of the line that `next` gave last, or 0 where it has given none.
    pub fn number(&self) -> u32
        ensures { result ≡ self.now.number }
    {
        self.number
    }

    /// The next line, or `None` at the end. A line with a fault is given as its fault, and `number` is then its number.
    pub fn next(&mut self) -> Option<Result<Line<'a>, LineFault>>
        ensures end { IfNone result ((self.old.left ≡ []) × (self.new ≡ self.old)) }
        ensures line { IfSome result (λ next. IfOk next (λ line. self.old.left ≡ said line.number line.name.now line.value.now ∷ self.new.left)) }
        ensures fault { IfSome result (λ next. IfErr next (λ fault. self.old.left ≡ faulty self.new.number fault ∷ self.new.left)) }
        ensures number { IfSome result (λ next. IfOk next (λ line. line.number ≡ self.new.number)) }
        // A value has tabs and bytes from 0x20 to 0x7e alone.
        ensures bytes { IfSome result (λ next. IfOk next (λ line. list_all is_line_byte line.value.now ≡ true)) }
    {
        let (number, line, rest) = next_kept(self.number, self.rest)?;
        self.number = number;
        self.rest = rest;
        Some(read_numbered(number, line))
    }
}

/// The next line that isn't skipped, behind the line of this number: its number, the line and what stands behind it.
fn next_kept(number: u32, rest: &[u8]) -> Option<(u32, &[u8], &[u8])>
    requires { number + length rest.now ≤ FILE_LIMIT }
    ensures end { IfNone result (lines_from (number + 1) (raw_lines rest.now) ≡ []) }
    ensures line { IfSome result (λ k. lines_from (number + 1) (raw_lines rest.now)
        ≡ record { number = k.0; reading = reading_of k.1.now } ∷ lines_from (k.0 + 1) (raw_lines k.2.now)) }
    ensures some { IfSome result (λ k. 0 < length k.1.now) }
    ensures within { IfSome result (λ k. k.0 + length k.2.now ≤ FILE_LIMIT) }
{
    let mut at = number;
    let mut left = rest;
    while !left.is_empty() {
        let (raw, behind) = cut_line(left);
        at += 1;
        left = behind;
        let line = bare_line(raw);
        if !is_skipped(line) {
            return Some((at, line, left));
        }
    }
    None
}

/// What the line of this number says.
fn read_numbered(number: u32, line: &[u8]) -> Result<Line<'_>, LineFault>
    requires { 0 < length line.now }
    ensures said { IfOk result (λ read. reading_of line.now ≡ Ok (record { name = read.name.now; value = read.value.now })) }
    ensures fault { IfErr result (λ fault. reading_of line.now ≡ Err fault) }
    ensures number { IfOk result (λ read. read.number ≡ number) }
    ensures bytes { IfOk result (λ read. list_all is_line_byte read.value.now ≡ true) }
{
    let parts = read_line(line)?;
    Ok(Line {
        number,
        name: parts.name,
        value: parts.value,
    })
}
