ghost use Rattle.std.specs.Prelude.{◌≡◌};
ghost use Rattle.fk_words.specs.Operands.{is_operand};

use crate::command_option::is_name;
use fk_values::read_number;

/// The most lines that one call of `fko generate` makes.
pub(crate) const GREATEST_COUNT: u64 = 100_000;

/// What a word is that stands at a fixed place behind a command.
#[derive(Clone, Copy)]
pub(crate) enum Operand {
    /// The name of a file or of a stanza.
    Name,
    /// How many lines to make.
    Count,
}

impl Operand {
    /// Whether the word can be it. It takes no memory.
    pub(crate) fn is_value(self, word: &[u8]) -> bool
        ensures { result ≡ is_operand self word.now }
    {
        match self {
            Operand::Name => is_name(word),
            Operand::Count => read_number(word, 1, GREATEST_COUNT).is_some(),
        }
    }
}
