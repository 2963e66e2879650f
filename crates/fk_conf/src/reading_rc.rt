ghost use Rattle.std.specs.Prelude.{◌≡◌, ◌<◌, ◌≤◌, [], IfOk, IfSome, MatchResult, None, length};
ghost use Rattle.std.specs.List.{list_any};
ghost use Rattle.std.specs.Str.{bytes_eq};
ghost use Rattle.fk_lines.specs.Cursor.{said};
ghost use Rattle.fk_values.specs.Settings.{first_fault};
ghost use Rattle.fk_values.specs.Stanzas.{before_head, stanzas_from, stanzas_in};
ghost use Rattle.fk_conf.specs.RcFault.{IsRcErr, early_fault, early_name, name_fault};
ghost use Rattle.fk_conf.specs.RcPrivate.{IsBodyErr, IsFaultAt, IsHead, names_of};
ghost use Rattle.fk_conf.specs.RcTable.{head_name, rc_rules};
ghost use Rattle.fk_conf.specs.ReadsRc.{ReadsRc, SaysRc};

use crate::conf_settings::err_at;
use crate::rc_body::{is_head, read_body};
use crate::rc_name::RcName;
use crate::rc_stanza_of::stanza_of;
use crate::{ConfErr, ConfWhat, RC_STANZAS_LIMIT, RcFile, RcStanza};
use fk_base::FILE_LIMIT;
use fk_lines::{Line, Lines};
use fk_values::SettingFault;
use std::alloc::Global;

/// The most bytes of a stanza's name.
const NAME_LIMIT: usize = 64;

/// Reads a client's file.
pub fn read_rc(alloc: Global, text: &[u8]) -> Result<RcFile, ConfErr>
    requires { length text.now ≤ FILE_LIMIT }
    ensures { MatchResult result (ReadsRc text.now) (IsRcErr text.now) }
{
    let mut lines = Lines::new(text);
    let mut file = RcFile::new(alloc);
    let mut next = first_head(&mut lines)?;
    while let Some(head) = next {
        if let Some(what) = name_fault(&file, head.value) {
            return Err(ConfErr::Fault {
                line: head.number,
                what,
            });
        }
        let (stanza, behind) = match read_stanza(alloc, head, &mut lines) {
            Ok(read) => read,
            Err(err) => return Err(err),
        };
        match file.push(stanza) {
            Ok(()) => next = behind,
            Err(_) => return Err(ConfErr::NoMemory),
        }
    }
    Ok(file)
}

/// The line that begins the first stanza. No other line may stand before it.
fn first_head<'a>(lines: &mut Lines<'a>) -> Result<Option<Line<'a>>, ConfErr>
    ensures early { MatchResult result
        (λ _. early_fault (before_head head_name lines.old.left) ≡ None)
        (IsFaultAt (early_fault (before_head head_name lines.old.left))) }
    ensures behind { IfOk result (λ next. stanzas_in head_name lines.old.left ≡ stanzas_from head_name next lines.new.left) }
    ensures next { IfOk result (λ next. IfSome next IsHead) }
{
    match lines.next() {
        None => Ok(None),
        Some(Err(fault)) => Err(err_at(lines.number(), SettingFault::Line(fault))),
        Some(Ok(line)) => {
            if is_head(line.name) {
                return Ok(Some(line));
            }
            Err(ConfErr::Fault {
                line: line.number,
                what: early_what(line.name),
            })
        }
    }
}

/// Why a line of this name may not stand before the first stanza.
fn early_what(name: &[u8]) -> ConfWhat
    ensures { result ≡ early_name name.now }
{
    match RcName::of(name) {
        Some(_) => ConfWhat::NoStanza,
        None => ConfWhat::UnknownName,
    }
}

/// The first test that the name of a stanza behind these fails.
fn name_fault(file: &RcFile, name: &[u8]) -> Option<ConfWhat>
    ensures fault { result ≡ name_fault (names_of file.now) name.now }
    ensures room { result ≡ None → length file.now < RC_STANZAS_LIMIT }
    ensures least { result ≡ None → 1 ≤ length name.now }
    ensures most { result ≡ None → length name.now ≤ NAME_LIMIT }
{
    if file.count() == RC_STANZAS_LIMIT {
        return Some(ConfWhat::TooMany);
    }
    if has_stanza(file, name) {
        return Some(ConfWhat::Twice);
    }
    if name.is_empty() || name.len() > NAME_LIMIT {
        return Some(ConfWhat::BadValue);
    }
    None
}

fn has_stanza(file: &RcFile, name: &[u8]) -> bool
    ensures { result ≡ list_any (λ other. bytes_eq other name.now) (names_of file.now) }
{
    is_among(file.as_slice(), name)
}

/// Whether one of the stanzas has this name.
fn is_among(stanzas: &[RcStanza], name: &[u8]) -> bool
    ensures { result ≡ list_any (λ stanza. bytes_eq stanza.name name.now) stanzas.now }
{
    stanzas.iter().any(|stanza| stanza.name.as_slice() == name)
}

/// The stanza that this line begins, and the line that begins the next one.
fn read_stanza<'a>(
    alloc: Global,
    head: Line<'a>,
    lines: &mut Lines<'a>,
) -> Result<(RcStanza, Option<Line<'a>>), ConfErr>
    requires head { IsHead head }
    requires least { 1 ≤ length head.value.now }
    requires most { length head.value.now ≤ 64 }
    ensures stanza { MatchResult result
        (λ read. SaysRc (said head.entry.number head.entry.name.now head.entry.value.now) (before_head head_name lines.old.left) read.0)
        (IsBodyErr (before_head head_name lines.old.left)) }
    ensures faultless { IfOk result (λ _. first_fault rc_rules [] (before_head head_name lines.old.left) ≡ None) }
    ensures behind { IfOk result (λ read. stanzas_in head_name lines.old.left ≡ stanzas_from head_name read.1 lines.new.left) }
    ensures next { IfOk result (λ read. IfSome read.1 IsHead) }
{
    let (given, next) = match read_body(lines) {
        Ok(read) => read,
        Err(err) => return Err(err),
    };
    match stanza_of(alloc, head.number, head.value, &given) {
        Ok(stanza) => Ok((stanza, next)),
        Err(_) => Err(ConfErr::NoMemory),
    }
}
