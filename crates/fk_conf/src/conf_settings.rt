ghost use Rattle.std.specs.Prelude.{◌≡◌, ℕ, ◌≤◌, [], length, MatchResult, None, Some, true};
ghost use Rattle.std.specs.List.{list_all};
ghost use Rattle.fk_base.specs.Characters.{is_line_byte};
ghost use Rattle.fk_lines.specs.Lines.{lines_of};
ghost use Rattle.fk_values.specs.Given.{given_at, said_by};
ghost use Rattle.fk_values.specs.Settings.{AddsSetting, first_fault, given_by, setting_fault, settings_of};
ghost use Rattle.fk_conf.specs.Conf.{conf_rules};
ghost use Rattle.fk_conf.specs.ConfErr.{IsConfErr};
ghost use Rattle.fk_conf.specs.ConfWhat.{conf_what};

use crate::ConfErr;
use crate::conf_err::conf_what;
use crate::conf_name::ConfName;
use fk_base::FILE_LIMIT;
use fk_lines::{Line, Lines};
use fk_values::{Given, SettingFault};

/// What the lines of a configuration set, or the first that is wrong.
pub(crate) fn read_settings(text: &[u8]) -> Result<Given<'_>, ConfErr>
    requires { length text.now ≤ FILE_LIMIT }
    ensures { MatchResult result
        (λ given. (first_fault conf_rules [] (lines_of text.now) ≡ None)
        × ((n : ℕ) → given_at given n ≡ given_by conf_rules (settings_of (lines_of text.now)) n))
        (IsConfErr text.now) }
{
    let mut lines = Lines::new(text);
    let mut given = Given::new();
    while let Some(next) = lines.next() {
        match next {
            Ok(line) => {
                if let Err(fault) = add_line(&mut given, line) {
                    return Err(err_at(lines.number(), fault));
                }
            }
            Err(fault) => return Err(err_at(lines.number(), SettingFault::Line(fault))),
        }
    }
    Ok(given)
}

/// Adds what a line sets.
fn add_line<'a>(given: &mut Given<'a>, line: Line<'a>) -> Result<(), SettingFault>
    requires { list_all is_line_byte line.value.now ≡ true }
    ensures { MatchResult result
        (λ _. AddsSetting conf_rules given.old given.new (said_by line.entry))
        (λ fault. (setting_fault conf_rules (given_at given.old) (said_by line.entry) ≡ Some fault) × (given.new ≡ given.old)) }
{
    match ConfName::of(line.name) {
        Some(name) => given.add(line, name.number(), name.is_value(line.value)),
        None => Err(SettingFault::UnknownName),
    }
}

/// The fault of the line with this number.
pub(crate) fn err_at(line: u32, fault: SettingFault) -> ConfErr
    ensures { result ≡ ConfErr.Fault line (conf_what fault) }
{
    ConfErr::Fault {
        line,
        what: conf_what(fault),
    }
}
