//! What both programs do alike: they take their words, they read a file whole, they tell a fault of their words and files by one
//! line and a status, and they show a text.
//!
//! What words mean is said by `fk_words`, and what files mean by `fk_conf` and `fk_access`. What a program does with them, and the
//! faults of its other objects, are no part of it: those stand in `fk_serve` and in `fk_client`.
//!
//! Start at `refusal`; `specs/Faults.antt` has each fault with its status and its line, `specs/Files.antt` what a file says, or why it
//! says nothing, and `specs/Telling.antt` what is printed.
#![tactic(auto)]

mod reading;
mod refusal;
mod telling;
mod words;

pub use reading::read_text;
pub use refusal::{Refusal, refusal_of_words, refuse};
pub use telling::{printed_status, say, show_text};
pub use words::argument_words;
