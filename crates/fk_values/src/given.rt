ghost use Rattle.std.specs.Prelude.{◌≡◌, ℕ, ◌==◌, ◌<◌, List, IfSome, MatchResult, None, Some, if◌then◌else◌, true};
ghost use Rattle.std.specs.List.{list_all};
ghost use Rattle.std.specs.Option.{option_map};
ghost use Rattle.fk_base.specs.Characters.{is_line_byte};
ghost use Rattle.fk_values.specs.Given.{given_at, said_by};
ghost use Rattle.fk_values.specs.Settings.{AddsSetting, NameRule, RefusesSetting, WhereRuled};

use crate::SettingFault;
use fk_lines::Line;
use std::marker::Model;

/// The most things that a file or a stanza can set.
pub const MOST_SETTINGS: usize = 16;

/// What the lines of a file, or of a stanza of it, have set so far: at the place of each number the line that did.
#[derive(Drop)]
pub struct Given<'a> {
    lines: [Option<Line<'a>>; 16],
}

impl<'a> Model for Given<'a> {
    ghost use Rattle.std.specs.Prelude.{◌≡◌, List, length, map, All, IfSome, Option, true};
    ghost use Rattle.std.specs.List.{list_all};
    ghost use Rattle.std.specs.Option.{option_map};
    ghost use Rattle.fk_base.specs.Characters.{is_line_byte};
    ghost use Rattle.fk_lines.specs.Lines.{Setting};
    ghost use Rattle.fk_values.specs.Given.{said_by};

    ghost Value = { List (Option Setting) };

    ghost view = { λ g. map (option_map said_by) g.lines };

    ghost invariant = { λ g. (length g.lines ≡ 16)
        × All (λ line. IfSome line (λ l. list_all is_line_byte l.value.now ≡ true)) g.lines };
}

impl<'a> Given<'a> {
    pub fn new() -> Self
        ensures { (n : ℕ) → given_at result n ≡ None }
    {
        Given { lines: [None; 16] }
    }

    /// The line that set what has this number.
    pub fn get(&self, number: usize) -> Option<Line<'a>>
        requires { number < MOST_SETTINGS }
        ensures line { given_at self.now number ≡ option_map said_by result }
        ensures bytes { IfSome result (λ line. list_all is_line_byte line.value.now ≡ true) }
    {
        self.lines[number]
    }

    /// Adds a line that sets what has this number, whose value is right or not.
    pub fn add(&mut self, line: Line<'a>, sets: usize, is_value: bool) -> Result<(), SettingFault>
        requires within { sets < MOST_SETTINGS }
        requires bytes { list_all is_line_byte line.value.now ≡ true }
        ensures { (rules : List NameRule) → let setting = said_by line.entry in WhereRuled rules setting sets is_value
            (MatchResult result (λ _. AddsSetting rules self.old self.new setting) (RefusesSetting rules self.old self.new setting)) }
    {
        if self.get(sets).is_some() {
            return Err(SettingFault::Twice);
        }
        if !is_value {
            return Err(SettingFault::BadValue);
        }
        self.put(sets, line);
        Ok(())
    }

    /// Keeps the line that sets what has this number.
    pub(crate) fn put(&mut self, number: usize, line: Line<'a>)
        requires within { number < MOST_SETTINGS }
        requires bytes { list_all is_line_byte line.value.now ≡ true }
        ensures { (n : ℕ) → given_at self.new n ≡ (if n == number then Some (said_by line.entry) else given_at self.old n) }
    {
        self.lines[number] = Some(line);
    }
}
