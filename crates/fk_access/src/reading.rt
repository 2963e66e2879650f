ghost use Rattle.std.specs.Prelude.{◌≡◌, ◌≤◌, IfOk, IfSome, MatchResult, None, length};
ghost use Rattle.fk_values.specs.Stanzas.{before_head, stanza_from, stanzas_from, stanzas_in};
ghost use Rattle.fk_access.specs.AccessFault.{IsAccessErr, early_fault, early_name, stanza_fault};
ghost use Rattle.fk_access.specs.AccessTable.{source_name};
ghost use Rattle.fk_access.specs.Private.{IsErrAt, IsFaultAt, IsSourceLine};
ghost use Rattle.fk_access.specs.ReadsAccess.{IsStanzaOf, ReadsAccess};

use crate::access_name::AccessName;
use crate::body::{is_source, read_body};
use crate::sources::read_sources;
use crate::stanza_of::stanza_of;
use crate::{Access, AccessErr, AccessWhat, STANZAS_LIMIT, Stanza};
use fk_base::FILE_LIMIT;
use fk_lines::{Line, Lines};
use std::alloc::Global;

/// Reads an access file.
pub fn read_access(alloc: Global, text: &[u8]) -> Result<Access, AccessErr>
    requires { length text.now ≤ FILE_LIMIT }
    ensures { MatchResult result (ReadsAccess text.now) (IsAccessErr text.now) }
{
    let mut lines = Lines::new(text);
    let mut access = Access::new(alloc);
    let mut next = first_source(&mut lines)?;
    while let Some(source) = next {
        if access.count() == STANZAS_LIMIT {
            return Err(AccessErr::Fault {
                line: source.number,
                what: AccessWhat::TooMany,
            });
        }
        let (stanza, behind) = match read_stanza(alloc, source, &mut lines) {
            Ok(read) => read,
            Err(err) => return Err(err),
        };
        match access.push(stanza) {
            Ok(()) => next = behind,
            Err(_) => return Err(AccessErr::NoMemory),
        }
    }
    Ok(access)
}

/// The line that begins the first stanza. No other line may stand before it.
fn first_source<'a>(lines: &mut Lines<'a>) -> Result<Option<Line<'a>>, AccessErr>
    ensures early { MatchResult result
        (λ _. early_fault (before_head source_name lines.old.left) ≡ None)
        (IsFaultAt (early_fault (before_head source_name lines.old.left))) }
    ensures behind { IfOk result (λ next. stanzas_in source_name lines.old.left ≡ stanzas_from source_name next lines.new.left) }
    ensures next { IfOk result (λ next. IfSome next IsSourceLine) }
{
    match lines.next() {
        None => Ok(None),
        Some(Err(fault)) => Err(AccessErr::Fault {
            line: lines.number(),
            what: AccessWhat::Line(fault),
        }),
        Some(Ok(line)) => {
            if is_source(line.name) {
                return Ok(Some(line));
            }
            Err(AccessErr::Fault {
                line: line.number,
                what: early_what(line.name),
            })
        }
    }
}

/// Why a line of this name may not stand before the first stanza.
fn early_what(name: &[u8]) -> AccessWhat
    ensures { result ≡ early_name name.now }
{
    match AccessName::of(name) {
        Some(_) => AccessWhat::NoSource,
        None => AccessWhat::UnknownName,
    }
}

/// The stanza that this line begins, and the line that begins the next one.
fn read_stanza<'a>(
    alloc: Global,
    source: Line<'a>,
    lines: &mut Lines<'a>,
) -> Result<(Stanza, Option<Line<'a>>), AccessErr>
    requires { IsSourceLine source }
    ensures stanza { MatchResult result
        (λ read. IsStanzaOf (stanza_from source_name source.entry lines.old.left) read.0)
        (IsErrAt (stanza_fault (stanza_from source_name source.entry lines.old.left))) }
    ensures faultless { IfOk result (λ _. stanza_fault (stanza_from source_name source.entry lines.old.left) ≡ None) }
    ensures behind { IfOk result (λ read. stanzas_in source_name lines.old.left ≡ stanzas_from source_name read.1 lines.new.left) }
    ensures next { IfOk result (λ read. IfSome read.1 IsSourceLine) }
{
    let Some(sources) = read_sources(source.value) else {
        return Err(AccessErr::Fault {
            line: source.number,
            what: AccessWhat::BadValue,
        });
    };
    let (body, next) = match read_body(source, lines) {
        Ok(read) => read,
        Err(err) => return Err(err),
    };
    match stanza_of(alloc, source.number, sources, &body) {
        Ok(stanza) => Ok((stanza, next)),
        Err(err) => Err(err),
    }
}
