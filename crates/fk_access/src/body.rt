ghost use Rattle.std.specs.Prelude.{◌≡◌, ◌<◌, ◌++◌, ◌∷◌, [], IfOk, IfSome, List, MatchResult, None, Some, false, length, true};
ghost use Rattle.std.specs.List.{list_all};
ghost use Rattle.std.specs.Str.{bytes_eq};
ghost use Rattle.fk_base.specs.Characters.{is_line_byte};
ghost use Rattle.fk_base.specs.FirstFailed.{first_failed};
ghost use Rattle.fk_lines.specs.Lines.{Setting};
ghost use Rattle.fk_values.specs.Given.{given_at, said_by};
ghost use Rattle.fk_values.specs.Stanzas.{stanza_from, stanzas_from, stanzas_in};
ghost use Rattle.fk_access.specs.AccessFault.{lines_fault, setting_what};
ghost use Rattle.fk_access.specs.AccessTable.{access_rule, source_name};
ghost use Rattle.fk_access.specs.KeyPairs.{is_of_pair};
ghost use Rattle.fk_access.specs.Private.{EndsPair, IsBody, IsFaultAt, IsKept, IsNamed, IsSourceLine};
ghost use Rattle.fk_access.specs.StanzaKeys.{pair_needs};

use crate::access_err::access_what;
use crate::access_name::AccessName;
use crate::key_ring::RING_LIMIT;
use crate::pair_lines::{EndedPairs, PairLines};
use crate::stanza_lacks::pair_lacks;
use crate::{AccessErr, AccessWhat};
use fk_lines::{Line, Lines};
use fk_values::Given;

/// What the lines of a stanza set.
#[derive(Drop)]
pub(crate) struct Body<'a> {
    /// Everything but the keys.
    pub(crate) rest: Given<'a>,
    /// The pair of keys that is begun.
    pub(crate) pair: Given<'a>,
    /// The pairs before it, each with its last moment.
    pub(crate) ended: EndedPairs<'a>,
}

/// What the lines of the stanza set that this line begins, and the line that begins the next one.
pub(crate) fn read_body<'a>(
    source: Line<'a>,
    lines: &mut Lines<'a>,
) -> Result<(Body<'a>, Option<Line<'a>>), AccessErr>
    requires { IsSourceLine source }
    ensures body { MatchResult result
        (λ read. IsBody (stanza_from source_name source.entry lines.old.left) read.0)
        (IsFaultAt (lines_fault [] (stanza_from source_name source.entry lines.old.left))) }
    ensures source { IfOk result (λ read. given_at read.0.rest 0 ≡ Some (said_by source.entry)) }
    ensures behind { IfOk result (λ read. stanzas_in source_name lines.old.left ≡ stanzas_from source_name read.1 lines.new.left) }
    ensures next { IfOk result (λ read. IfSome read.1 IsSourceLine) }
{
    let mut body = empty_body();
    if let Err(what) = add_line(&mut body, source) {
        return Err(AccessErr::Fault {
            line: source.number,
            what,
        });
    }
    while let Some(next) = lines.next() {
        match next {
            Ok(line) => {
                if is_source(line.name) {
                    return Ok((body, Some(line)));
                }
                if let Err(what) = add_line(&mut body, line) {
                    return Err(AccessErr::Fault {
                        line: line.number,
                        what,
                    });
                }
            }
            Err(fault) => return Err(AccessErr::Fault {
                line: lines.number(),
                what: AccessWhat::Line(fault),
            }),
        }
    }
    Ok((body, None))
}

fn empty_body<'a>() -> Body<'a>
    ensures { IsKept [] result }
{
    Body {
        rest: Given::new(),
        pair: Given::new(),
        ended: EndedPairs::new(),
    }
}

/// Whether a line of this name begins a stanza.
pub(crate) fn is_source(name: &[u8]) -> bool
    ensures { result ≡ bytes_eq source_name name.now }
{
    AccessName::Source.text() == name
}

/// Adds what a line sets.
fn add_line<'a>(body: &mut Body<'a>, line: Line<'a>) -> Result<(), AccessWhat>
    requires { list_all is_line_byte line.value.now ≡ true }
    ensures { (before : List Setting) → IsKept before body.old → MatchResult result
        (λ _. (setting_what before (said_by line.entry) ≡ None) × IsKept (before ++ said_by line.entry ∷ []) body.new)
        (λ what. setting_what before (said_by line.entry) ≡ Some what) }
{
    match AccessName::of(line.name) {
        Some(name) => {
            if name.is_of_pair() {
                add_to_pair(body, name, line)
            } else {
                add_to_rest(body, name, line)
            }
        }
        None => Err(AccessWhat::UnknownName),
    }
}

/// Adds what a line sets that belongs to no pair of keys.
fn add_to_rest<'a>(body: &mut Body<'a>, name: AccessName, line: Line<'a>) -> Result<(), AccessWhat>
    requires name { IsNamed (said_by line) name }
    requires other { is_of_pair (access_rule name).sets ≡ false }
    requires bytes { list_all is_line_byte line.value.now ≡ true }
    ensures { (before : List Setting) → IsKept before body.old → MatchResult result
        (λ _. (setting_what before (said_by line.entry) ≡ None) × IsKept (before ++ said_by line.entry ∷ []) body.new)
        (λ what. setting_what before (said_by line.entry) ≡ Some what) }
{
    match body
        .rest
        .add(line, name.number(), name.is_value(line.value))
    {
        Ok(()) => Ok(()),
        Err(fault) => Err(access_what(fault)),
    }
}

/// Adds what a line sets that belongs to a pair of keys.
fn add_to_pair<'a>(body: &mut Body<'a>, name: AccessName, line: Line<'a>) -> Result<(), AccessWhat>
    requires name { IsNamed (said_by line) name }
    requires pair { is_of_pair (access_rule name).sets ≡ true }
    requires bytes { list_all is_line_byte line.value.now ≡ true }
    ensures { (before : List Setting) → IsKept before body.old → MatchResult result
        (λ _. (setting_what before (said_by line.entry) ≡ None) × IsKept (before ++ said_by line.entry ∷ []) body.new)
        (λ what. setting_what before (said_by line.entry) ≡ Some what) }
{
    if body.ended.count() == RING_LIMIT {
        return Err(AccessWhat::TooMany);
    }
    if let Err(fault) = body
        .pair
        .add(line, name.number(), name.is_value(line.value))
    {
        return Err(access_what(fault));
    }
    if name.number() == AccessName::KeysUntil.number() {
        end_pair(body)
    } else {
        Ok(())
    }
}

/// Ends the pair that is begun, which has to have its keys.
fn end_pair<'a>(body: &mut Body<'a>) -> Result<(), AccessWhat>
    requires { length body.old.ended < RING_LIMIT }
    ensures ends { MatchResult result
        (λ _. EndsPair body.old body.new)
        (λ what. first_failed (pair_needs (given_at body.old.pair)) ≡ Some what) }
{
    if let Some(what) = pair_lacks(&body.pair) {
        return Err(what);
    }
    let lines = PairLines::of(&body.pair);
    body.pair = Given::new();
    body.ended.push(lines);
    Ok(())
}
