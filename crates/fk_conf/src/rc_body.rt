ghost use Rattle.std.specs.Prelude.{◌≡◌, IfOk, IfSome, MatchResult, Some, true};
ghost use Rattle.std.specs.List.{list_all};
ghost use Rattle.std.specs.Str.{bytes_eq};
ghost use Rattle.fk_base.specs.Characters.{is_line_byte};
ghost use Rattle.fk_values.specs.Given.{given_at, said_by};
ghost use Rattle.fk_values.specs.Settings.{AddsSetting, setting_fault};
ghost use Rattle.fk_values.specs.Stanzas.{before_head, stanzas_from, stanzas_in};
ghost use Rattle.fk_conf.specs.RcFault.{lines_fault};
ghost use Rattle.fk_conf.specs.RcPrivate.{IsFaultAt, IsHead, IsRcBody};
ghost use Rattle.fk_conf.specs.RcTable.{head_name, rc_rules};

use crate::ConfErr;
use crate::conf_settings::err_at;
use crate::rc_name::RcName;
use fk_lines::{Line, Lines};
use fk_values::{Given, SettingFault};

/// What the lines of a stanza behind its head set, and the line that begins the next one.
pub(crate) fn read_body<'a>(lines: &mut Lines<'a>) -> Result<(Given<'a>, Option<Line<'a>>), ConfErr>
    ensures body { MatchResult result
        (λ read. IsRcBody (before_head head_name lines.old.left) read.0)
        (IsFaultAt (lines_fault (before_head head_name lines.old.left))) }
    ensures behind { IfOk result (λ read. stanzas_in head_name lines.old.left ≡ stanzas_from head_name read.1 lines.new.left) }
    ensures next { IfOk result (λ read. IfSome read.1 IsHead) }
{
    let mut given = Given::new();
    while let Some(next) = lines.next() {
        match next {
            Ok(line) => {
                if is_head(line.name) {
                    return Ok((given, Some(line)));
                }
                if let Err(fault) = add_line(&mut given, line) {
                    return Err(err_at(line.number, fault));
                }
            }
            Err(fault) => return Err(err_at(lines.number(), SettingFault::Line(fault))),
        }
    }
    Ok((given, None))
}

/// Whether a line of this name begins a stanza.
pub(crate) fn is_head(name: &[u8]) -> bool
    ensures { result ≡ bytes_eq head_name name.now }
{
    b"[".as_slice() == name
}

/// Adds what a line sets.
fn add_line<'a>(given: &mut Given<'a>, line: Line<'a>) -> Result<(), SettingFault>
    requires { list_all is_line_byte line.value.now ≡ true }
    ensures { MatchResult result
        (λ _. AddsSetting rc_rules given.old given.new (said_by line.entry))
        (λ fault. (setting_fault rc_rules (given_at given.old) (said_by line.entry) ≡ Some fault) × (given.new ≡ given.old)) }
{
    match RcName::of(line.name) {
        Some(name) => given.add(line, name.number(), name.is_value(line.value)),
        None => Err(SettingFault::UnknownName),
    }
}
