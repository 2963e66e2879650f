//! The tool `fko`: packets made and read line by line, lines for a trial, new keys, and the changes that a journal holds.
//!
//! Each command reads and prints line by line, so memory does not grow with either. The files, the entropy, the disk, the input and the
//! output come in as traits. What words are is said by `fk_words`, what a stanza of the client's file seals by and how new keys are made
//! by `fk_client`, what a packet is by `fk_packet`, how a journal is read by `fk_ledger`, and how it is told why one can't be read by
//! `fk_view`.
//!
//! Start at `command`, whose one call the program makes; `specs/Running.antt` says what it does. `specs/Streams.antt` says how an input
//! is answered line by line, `specs/EncodeLine.antt` and `specs/Answers.antt` what its lines are and are answered,
//! `specs/DecodedText.antt` how refusals are told, `specs/Generated.antt` what the lines for a trial are, and `specs/JournalText.antt`
//! how a change is shown.
#![tactic(auto)]

mod answering;
mod asked;
mod change_line;
mod command;
mod decoded;
mod encode_line;
mod encoded;
mod generated;
mod generating;
mod help;
mod input;
mod job;
mod journal;
mod laws;
mod session;
mod stop;
mod writing;

pub use command::fko_run;
pub use laws::version_has_its_text;
