ghost use Rattle.std.specs.Prelude.{◌≡◌, ◌+◌, ◌<◌, ◌≤◌, drop, length};
ghost use Rattle.fk_words.specs.Operands.{complete, fko_read, operand_fault_at, operands_of};
ghost use Rattle.fk_words.specs.WordFaults.{first_fault_at};

use crate::WordFault;
use crate::operand::Operand;
use crate::option_set::OptionSet;
use crate::word_walk::begins_option;
use fk_base::Words;

/// The command that the words of `fko` make, or the first test that they fail. It takes no memory.
pub(crate) fn read_fko(words: &Words) -> Result<OptionSet, WordFault>
    ensures { result ≡ fko_read words.now }
{
    if words.count() == 0 {
        return Err(WordFault::Modes);
    }
    match OptionSet::of_command(words.get(0)) {
        Some(command) => read_operands(command, words),
        None => Err(WordFault::Unknown(1)),
    }
}

/// The command, where the words behind it are its operands.
fn read_operands(command: OptionSet, words: &Words) -> Result<OptionSet, WordFault>
    requires { 1 ≤ length words.now }
    ensures { result ≡ complete (first_fault_at (operand_fault_at (operands_of command) (drop 1 words.now)) (length (drop 1 words.now))) command (drop 1 words.now) }
{
    let operands = command.operands();
    if let Some(fault) = first_operand_fault(operands, words) {
        return Err(fault);
    }
    if words.count() - 1 < operands.len() {
        return Err(WordFault::Modes);
    }
    Ok(command)
}

/// Tests the words behind the command one by one.
fn first_operand_fault(operands: &[Operand], words: &Words) -> Option<WordFault>
    requires { 1 ≤ length words.now }
    ensures { result ≡ first_fault_at (operand_fault_at operands.now (drop 1 words.now)) (length (drop 1 words.now)) }
{
    for at in 0..words.count() - 1 {
        if let Some(fault) = operand_fault(operands, words, at) {
            return Some(fault);
        }
    }
    None
}

/// The fault of the word at this place behind the command, from 0.
fn operand_fault(operands: &[Operand], words: &Words, at: usize) -> Option<WordFault>
    requires word { at + 1 < length words.now }
    requires fits { at + 1 < usize.MAX }
    ensures { result ≡ operand_fault_at operands.now (drop 1 words.now) at }
{
    let Some(operand) = operands.get(at) else {
        return Some(WordFault::Unknown(at + 2));
    };
    let word = words.get(at + 1);
    if begins_option(word) {
        return Some(WordFault::Unknown(at + 2));
    }
    if !operand.is_value(word) {
        return Some(WordFault::BadValue(at + 2));
    }
    None
}
