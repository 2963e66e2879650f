ghost use Rattle.std.specs.Prelude.{◌≡◌, is_some, length};
ghost use Rattle.std.specs.Option.{option_and_then, option_map};
ghost use Rattle.fk_base.specs.FirstFailed.{first_failed};
ghost use Rattle.fk_subst.specs.CommandFault.{is_template};
ghost use Rattle.fk_values.specs.Given.{given_at, said_by};
ghost use Rattle.fk_values.specs.KeyOf.{key_by};
ghost use Rattle.fk_values.specs.Settings.{read_of};
ghost use Rattle.fk_values.specs.Values.{number_within};
ghost use Rattle.fk_access.specs.AccessTable.{access_rule};
ghost use Rattle.fk_access.specs.AccessValues.{is_closing};
ghost use Rattle.fk_access.specs.KeyPairs.{has_last_pair};
ghost use Rattle.fk_access.specs.Private.{given_in_body};
ghost use Rattle.fk_access.specs.StanzaKeys.{has_value, lacks_first, last_needs, pair_needs, rest_needs};

use crate::AccessWhat;
use crate::access_name::AccessName;
use crate::body::Body;
use fk_base::LONGEST_TIME;
use fk_lines::Line;
use fk_subst::is_template;
use fk_values::{Given, is_base64_key, is_key, read_number};

/// What a stanza lacks first at its end. It takes no memory.
pub(crate) fn lacks_first(body: &Body<'_>) -> Option<AccessWhat>
    ensures { result ≡ lacks_first (length body.now.ended) (given_in_body body.now) }
{
    match last_lacks(body) {
        Some(what) => Some(what),
        None => rest_lacks(&body.rest),
    }
}

/// Which key the pair at the end of a stanza lacks first, where there is one.
fn last_lacks(body: &Body<'_>) -> Option<AccessWhat>
    ensures { result ≡ first_failed (last_needs (length body.now.ended) (given_in_body body.now)) }
{
    if has_last_pair(body) {
        pair_lacks(&body.pair)
    } else {
        None
    }
}

/// Whether the pair that is begun is one of the stanza's.
pub(crate) fn has_last_pair(body: &Body<'_>) -> bool
    ensures { result ≡ has_last_pair (length body.now.ended) (given_at body.now.pair) }
{
    body.ended.count() == 0
        || AccessName::Key.line_in(&body.pair).is_some()
        || AccessName::HmacKey.line_in(&body.pair).is_some()
        || AccessName::HmacDigestType.line_in(&body.pair).is_some()
        || AccessName::KeysUntil.line_in(&body.pair).is_some()
}

/// Which key a pair lacks first. It takes no memory.
pub(crate) fn pair_lacks(pair: &Given<'_>) -> Option<AccessWhat>
    ensures { result ≡ first_failed (pair_needs (given_at pair.now)) }
{
    if !has_key(AccessName::Key.line_in(pair), AccessName::KeyBase64) {
        return Some(AccessWhat::NoKey);
    }
    if !has_key(AccessName::HmacKey.line_in(pair), AccessName::HmacKeyBase64) {
        return Some(AccessWhat::NoHmacKey);
    }
    None
}

/// What a stanza lacks first but its keys.
fn rest_lacks(rest: &Given<'_>) -> Option<AccessWhat>
    ensures { result ≡ first_failed (rest_needs (given_at rest.now)) }
{
    if !has_command(AccessName::CmdCycleOpen.line_in(rest)) {
        return Some(AccessWhat::NoOpen);
    }
    if !has_closing(AccessName::CmdCycleClose.line_in(rest)) {
        return Some(AccessWhat::NoClose);
    }
    if !has_timer(AccessName::CmdCycleTimer.line_in(rest)) {
        return Some(AccessWhat::NoTimer);
    }
    None
}

/// Whether a line gives a key, in base64 under this name.
fn has_key(line: Option<Line<'_>>, base64_name: AccessName) -> bool
    ensures { result ≡ is_some (option_and_then (key_by (access_rule base64_name).name) (option_map said_by line.entry)) }
{
    match line {
        Some(line) => {
            if base64_name.text() == line.name {
                is_base64_key(line.value)
            } else {
                is_key(line.value)
            }
        }
        None => false,
    }
}

fn has_command(line: Option<Line<'_>>) -> bool
    ensures { result ≡ has_value is_template (option_map said_by line.entry) }
{
    match line {
        Some(line) => is_template(line.value),
        None => false,
    }
}

fn has_closing(line: Option<Line<'_>>) -> bool
    ensures { result ≡ has_value is_closing (option_map said_by line.entry) }
{
    match line {
        Some(line) => AccessName::CmdCycleClose.is_value(line.value),
        None => false,
    }
}

fn has_timer(line: Option<Line<'_>>) -> bool
    ensures { result ≡ is_some (read_of (number_within 1 LONGEST_TIME) (option_map said_by line.entry)) }
{
    match line {
        Some(line) => read_number(line.value, 1, LONGEST_TIME).is_some(),
        None => false,
    }
}
