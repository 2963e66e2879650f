//! The words of the programs' command lines, read whole as what they ask for, or refused with the first fault and its place.
//!
//! A program's options, what their values may be and the sets that they make stand in one table each. What the files say that the
//! words name is read elsewhere, and what a command does is no part of it: the words of every program are read alike.
//!
//! Start at `reading`; `specs/CommandOptions.antt` and `specs/OptionSets.antt` have the tables, `specs/WordFaults.antt` the tests, for
//! `fko` those of `specs/Operands.antt`, and `specs/ReadsWords.antt` says what words ask for.
#![tactic(auto)]

mod command;
mod command_option;
mod laws;
mod operand;
mod operand_walk;
mod option_set;
mod reading;
mod tool;
mod word_fault;
mod word_places;
mod word_walk;

pub use command::{Command, SendWords};
pub use laws::{
    client_words_ask_for_one_packet, daemon_words_ask_for_one_command, limits_have_their_numbers,
    tool_words_ask_for_one_command, words_ask_for_their_program,
};
pub use reading::read_words;
pub use tool::Tool;
pub use word_fault::WordFault;
