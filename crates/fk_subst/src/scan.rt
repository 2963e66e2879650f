ghost use Rattle.std.specs.Prelude.{◌≡◌, ◌≢◌, ◌↔◌, ℕ, [], List, IsTrue, MatchOption, length, false, true, drop, ◌≤◌};
ghost use Rattle.fk_base.specs.Characters.{is_blank};
ghost use Rattle.fk_subst.specs.Template.{is_name_letter, is_plain, words_in, IsRun};
ghost use Rattle.fk_subst.specs.CommandFault.{begins_unknown, FirstCommandFault, IsFaultless, IsFirstUnknown};

use crate::CommandFault;
use crate::variable::var_named;

/// The most bytes of a template's text.
const MOST_BYTES: usize = 512;

/// The most words of a template.
const MOST_WORDS: usize = 32;

/// What is wrong with the text. It takes no memory.
pub(crate) fn first_command_fault(text: &[u8]) -> Option<CommandFault>
    ensures { MatchOption result (IsFaultless text.now) (FirstCommandFault text.now) }
{
    let words = word_count(text);
    if words == 0 {
        return Some(CommandFault::Empty);
    }
    if text.len() > MOST_BYTES || words > MOST_WORDS {
        return Some(CommandFault::TooLong);
    }
    first_unknown(text).map(CommandFault::UnknownName)
}

/// How many runs stand between the blanks.
fn word_count(text: &[u8]) -> usize
    ensures { result ≡ length (words_in text.now) }
{
    text.split(|byte| is_blank(*byte))
        .filter(|run| !run.is_empty())
        .count()
}

pub(crate) fn is_blank(byte: u8) -> bool
    ensures { result ≡ is_blank byte }
{
    byte == b' ' || byte == b'\t'
}

/// The place of the first `$` whose name is none of the names.
fn first_unknown(text: &[u8]) -> Option<usize>
    ensures { MatchOption result
        ((place : ℕ) → begins_unknown (drop place text.now) ≡ false)
        (IsFirstUnknown text.now) }
{
    for place in 0..text.len() {
        if begins_unknown(&text[place..]) {
            return Some(place);
        }
    }
    None
}

fn begins_unknown(text: &[u8]) -> bool
    ensures { result ≡ begins_unknown text.now }
{
    match text.split_first() {
        Some((b'$', more)) => {
            let (name, _) = name_front(more);
            var_named(name).is_none()
        }
        _ => false,
    }
}

/// The letters of a name that the text begins with, and what stands behind them.
pub(crate) fn name_front(text: &[u8]) -> (&[u8], &[u8])
    ensures { IsRun is_name_letter text.now result.0.now result.1.now }
{
    let len = text
        .iter()
        .take_while(|byte| byte.is_ascii_uppercase() || **byte == b'_')
        .count();
    text.split_at(len)
}

/// The plain text that the text begins with, and what stands behind it.
pub(crate) fn plain_front(text: &[u8]) -> (&[u8], &[u8])
    ensures { IsRun is_plain text.now result.0.now result.1.now }
{
    let len = text.iter().take_while(|byte| **byte != b'$').count();
    text.split_at(len)
}
