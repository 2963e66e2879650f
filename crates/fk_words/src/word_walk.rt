ghost use Rattle.std.specs.Prelude.{◌≡◌, ◌+◌, ◌<◌, ◌≤◌, drop, length, take};
ghost use Rattle.std.specs.List.{list_any};
ghost use Rattle.std.specs.Str.{bytes_eq};
ghost use Rattle.fk_words.specs.CommandOptions.{option_rule};
ghost use Rattle.fk_words.specs.WordFaults.{awaits_value, begins_option, fault_at, is_value_at, known_fault, value_fault, words_fault};

use crate::command_option::CommandOption;
use crate::{Tool, WordFault};
use fk_base::Words;

/// The first test that the words fail, one by one. It takes no memory.
pub(crate) fn words_fault(tool: Tool, words: &Words) -> Option<WordFault>
    ensures { result ≡ words_fault tool words.now }
{
    for at in 0..words.count() {
        if let Some(fault) = fault_at(tool, words, at) {
            return Some(fault);
        }
    }
    None
}

/// The fault of the word at this place, from 0. A value is tested with its option.
fn fault_at(tool: Tool, words: &Words, at: usize) -> Option<WordFault>
    requires word { at < length words.now }
    requires fits { at < usize.MAX }
    ensures { result ≡ fault_at tool words.now at }
{
    if is_value_at(tool, words, at) {
        return None;
    }
    match CommandOption::of(tool, words.get(at)) {
        Some(option) => known_fault(option, words, at),
        None => Some(WordFault::Unknown(at + 1)),
    }
}

/// Whether the word at this place, from 0, is the value of the option before it.
fn is_value_at(tool: Tool, words: &Words, at: usize) -> bool
    requires { at < length words.now }
    ensures { result ≡ is_value_at tool words.now at }
{
    if at == 0 {
        return false;
    }
    awaits_value(tool, words.get(at - 1))
}

fn awaits_value(tool: Tool, word: &[u8]) -> bool
    ensures { result ≡ awaits_value tool word.now }
{
    match CommandOption::of(tool, word) {
        Some(option) => option.has_value(),
        None => false,
    }
}

/// The first test that the option at this place, from 0, fails.
fn known_fault(option: CommandOption, words: &Words, at: usize) -> Option<WordFault>
    requires word { at < length words.now }
    requires fits { at < usize.MAX }
    ensures { result ≡ known_fault (option_rule option) (take at words.now) (at + 1) (drop (at + 1) words.now) }
{
    if stands_before(words, at, option.word()) {
        return Some(WordFault::Twice(at + 1));
    }
    if option.has_value() {
        value_fault(option, words, at)
    } else {
        None
    }
}

/// The first test that the value of the option at this place, from 0, fails.
fn value_fault(option: CommandOption, words: &Words, at: usize) -> Option<WordFault>
    requires word { at < length words.now }
    requires fits { at < usize.MAX }
    ensures { result ≡ value_fault (option_rule option) (at + 1) (drop (at + 1) words.now) }
{
    if at + 1 == words.count() {
        return Some(WordFault::NoValue(at + 1));
    }
    let value = words.get(at + 1);
    if begins_option(value) {
        return Some(WordFault::NoValue(at + 1));
    }
    if !option.is_value(value) {
        return Some(WordFault::BadValue(at + 2));
    }
    None
}

/// Whether a word begins with a dash, as no value does.
pub(crate) fn begins_option(word: &[u8]) -> bool
    ensures { result ≡ begins_option word.now }
{
    match word {
        [first, ..] => *first == b'-',
        [] => false,
    }
}

/// Whether the text is one of the words before this place.
fn stands_before(words: &Words, at: usize, text: &[u8]) -> bool
    requires { at ≤ length words.now }
    ensures { result ≡ list_any (λ word. bytes_eq word text.now) (take at words.now) }
{
    for before in 0..at {
        if words.get(before) == text {
            return true;
        }
    }
    false
}
