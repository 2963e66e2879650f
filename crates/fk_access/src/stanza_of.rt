ghost use Rattle.std.specs.Prelude.{◌≡◌, ◌≤◌, IfOk, IfSome, MatchResult, Some, false, is_some, length, true, unwrap_or};
ghost use Rattle.std.specs.List.{AllZip, list_all};
ghost use Rattle.std.specs.Option.{option_and_then, option_map};
ghost use Rattle.fk_base.specs.Characters.{is_line_byte};
ghost use Rattle.fk_subst.specs.CommandFault.{is_template};
ghost use Rattle.fk_values.specs.Given.{given_at, said_by};
ghost use Rattle.fk_values.specs.KeyOf.{key_by};
ghost use Rattle.fk_values.specs.Settings.{read_of};
ghost use Rattle.fk_values.specs.Values.{flag_in, hash_in, number_within};
ghost use Rattle.fk_access.specs.declared.access_name.AccessName.TheVariants.{Source};
ghost use Rattle.fk_access.specs.AccessTable.{access_rule, given_in};
ghost use Rattle.fk_access.specs.AccessValues.{pairs_in};
ghost use Rattle.fk_access.specs.PairGiven.{pair_given};
ghost use Rattle.fk_access.specs.Private.{AreWhole, HasKeys, IsErrAt, IsTimedAt, given_in_body, pairs_in_body};
ghost use Rattle.fk_access.specs.ReadsAccess.{GivesCommand, GivesSources, IsGiven};
ghost use Rattle.fk_access.specs.StanzaKeys.{has_value, hmac_key, lacks_first, sealing_key};

use crate::access_name::AccessName;
use crate::body::Body;
use crate::pair_lines::PairLines;
use crate::pair_list::read_pairs;
use crate::stanza_lacks::{has_last_pair, lacks_first};
use crate::{AccessErr, KeyRing, PairList, Sources, Stanza, TimedKeys};
use fk_base::{Bytes, GREATEST_MOMENT, HashKind, Keys, LONGEST_TIME, NoMemory};
use fk_lines::Line;
use fk_mac::PreparedKeys;
use fk_subst::{CommandFault, Template, split};
use fk_values::{Given, KEY_LIMIT, read_flag, read_hash_name, read_number, take_key_of};
use std::alloc::Global;

/// The stanza whose lines set this, or what it lacks first. What it lacks is told without memory.
pub(crate) fn stanza_of(
    alloc: Global,
    line: u32,
    sources: Sources,
    body: &Body<'_>,
) -> Result<Stanza, AccessErr>
    requires sources { GivesSources (given_in (given_at body.now.rest) Source) sources }
    requires whole { AreWhole body.now }
    ensures { MatchResult result
        (λ stanza. (stanza.line ≡ line) × IsGiven (given_in_body body.now) stanza × AllZip IsTimedAt (pairs_in_body body.now) stanza.ring
        × (lacks_first (length body.now.ended) (given_in_body body.now) ≡ None))
        (IsErrAt (option_map (λ what. (line, what)) (lacks_first (length body.now.ended) (given_in_body body.now)))) }
{
    if let Some(what) = lacks_first(body) {
        return Err(AccessErr::Fault { line, what });
    }
    let given = &body.rest;
    Ok(Stanza {
        line,
        sources,
        allowed: pairs_of(AccessName::OpenPorts.line_in(given)),
        barred: pairs_of(AccessName::RestrictPorts.line_in(given)),
        ring: ring_of(alloc, body)?,
        user: user_of(alloc, AccessName::RequireUsername.line_in(given))?,
        need_source: flag_of(AccessName::RequireSourceAddress.line_in(given)),
        expire: moment_of(AccessName::AccessExpireEpoch.line_in(given)),
        opening: command_of(alloc, AccessName::CmdCycleOpen.line_in(given))?,
        closing: command_of(alloc, AccessName::CmdCycleClose.line_in(given))?,
        timer: timer_of(AccessName::CmdCycleTimer.line_in(given)),
    })
}

/// The pairs of keys of a stanza, each of which has both keys.
fn ring_of(alloc: Global, body: &Body<'_>) -> Result<KeyRing, NoMemory>
    requires whole { AreWhole body.now }
    requires last { lacks_first (length body.now.ended) (given_in_body body.now) ≡ None }
    ensures { IfOk result (λ ring. AllZip IsTimedAt (pairs_in_body body.now) ring) }
{
    let mut pairs = ended_of(alloc, body)?;
    if !has_last_pair(body) {
        return Ok(KeyRing::of(pairs));
    }
    let lines = PairLines::of(&body.pair);
    pairs.push(timed_of(alloc, lines)?)?;
    Ok(KeyRing::of(pairs))
}

/// The pairs that are ended.
fn ended_of(alloc: Global, body: &Body<'_>) -> Result<Vec<TimedKeys>, NoMemory>
    requires { AreWhole body.now }
    ensures { IfOk result (λ pairs. AllZip IsTimedAt body.now.ended pairs.items) }
{
    let mut pairs = Vec::new(alloc);
    for at in 0..body.ended.count() {
        let lines = body.ended.get(at);
        pairs.push(timed_of(alloc, lines)?)?;
    }
    Ok(pairs)
}

/// The pair that has both keys, and its last moment.
fn timed_of(alloc: Global, lines: PairLines<'_>) -> Result<TimedKeys, NoMemory>
    requires { HasKeys (pair_given lines) }
    ensures { IfOk result (λ timed. IsTimedAt (pair_given lines.entry) timed) }
{
    let keys = PreparedKeys::new(keys_of(alloc, lines)?);
    let until = moment_of(lines.until);
    Ok(TimedKeys { keys, until })
}

/// The keys of a pair that has both.
fn keys_of(alloc: Global, lines: PairLines<'_>) -> Result<Keys, NoMemory>
    requires { HasKeys (pair_given lines) }
    ensures key { IfOk result (λ keys. sealing_key (given_at (pair_given lines.entry)) ≡ Some keys.key) }
    ensures mac_key { IfOk result (λ keys. hmac_key (given_at (pair_given lines.entry)) ≡ Some keys.mac_key) }
    ensures kind { IfOk result (λ keys. keys.kind ≡ unwrap_or (read_of hash_in (option_map said_by lines.entry.kind)) HashKind.Sha256) }
{
    let key = key_of(alloc, lines.key, AccessName::KeyBase64)?;
    let mac_key = key_of(alloc, lines.mac_key, AccessName::HmacKeyBase64)?;
    let kind = hash_of(lines.kind);
    Ok(Keys { key, kind, mac_key })
}

/// The key that a line gives, in base64 under this name.
fn key_of(alloc: Global, line: Option<Line<'_>>, base64_name: AccessName) -> Result<Bytes, NoMemory>
    requires { is_some (option_and_then (key_by (access_rule base64_name).name) (option_map said_by line)) ≡ true }
    ensures key { IfOk result (λ key. option_and_then (key_by (access_rule base64_name).name) (option_map said_by line.entry) ≡ Some key) }
    ensures bounds { IfOk result (λ key. (1 ≤ length key) × (length key ≤ KEY_LIMIT)) }
{
    let taken = match line {
        Some(line) => take_key_of(alloc, line, base64_name.text())?,
        None => None,
    };
    match taken {
        Some(key) => Ok(key),
        None => unreachable!(),
    }
}

/// The hash that a line names, or SHA-256 without one.
fn hash_of(line: Option<Line<'_>>) -> HashKind
    ensures { result ≡ unwrap_or (read_of hash_in (option_map said_by line.entry)) HashKind.Sha256 }
{
    match line {
        Some(line) => read_hash_name(line.value).unwrap_or(HashKind::Sha256),
        None => HashKind::Sha256,
    }
}

fn pairs_of(line: Option<Line<'_>>) -> Option<PairList>
    ensures { result ≡ read_of pairs_in (option_map said_by line.entry) }
{
    match line {
        Some(line) => read_pairs(line.value),
        None => None,
    }
}

fn user_of(alloc: Global, line: Option<Line<'_>>) -> Result<Option<Bytes>, NoMemory>
    ensures { IfOk result (λ user. user ≡ option_map (λ setting. setting.value) (option_map said_by line.entry)) }
{
    match line {
        Some(line) => Ok(Some(Bytes::copy(alloc, line.value)?)),
        None => Ok(None),
    }
}

fn flag_of(line: Option<Line<'_>>) -> bool
    ensures { result ≡ unwrap_or (read_of flag_in (option_map said_by line.entry)) false }
{
    match line {
        Some(line) => read_flag(line.value).unwrap_or(false),
        None => false,
    }
}

fn moment_of(line: Option<Line<'_>>) -> Option<u64>
    ensures { result ≡ read_of (number_within 0 GREATEST_MOMENT) (option_map said_by line.entry) }
{
    match line {
        Some(line) => read_number(line.value, 0, GREATEST_MOMENT),
        None => None,
    }
}

/// The command that a line gives.
fn command_of(alloc: Global, line: Option<Line<'_>>) -> Result<Template, NoMemory>
    requires command { has_value is_template (option_map said_by line) ≡ true }
    requires bytes { IfSome line (λ l. list_all is_line_byte l.value.now ≡ true) }
    ensures { IfOk result (GivesCommand (option_map said_by line.entry)) }
{
    match line {
        Some(line) => match split(alloc, line.value) {
            Ok(template) => Ok(template),
            // a text that has a template has no other fault
            Err(_) => Err(NoMemory),
        },
        None => unreachable!(),
    }
}

/// The seconds that a line gives.
fn timer_of(line: Option<Line<'_>>) -> u32
    requires { is_some (read_of (number_within 1 LONGEST_TIME) (option_map said_by line)) ≡ true }
    ensures { read_of (number_within 1 LONGEST_TIME) (option_map said_by line.entry) ≡ Some result }
{
    let seconds = match line {
        Some(line) => read_number(line.value, 1, LONGEST_TIME),
        None => None,
    };
    match seconds {
        Some(seconds) => seconds as u32,
        None => unreachable!(),
    }
}
