//! The lines of a configuration file: cut, trimmed and numbered, each with its name and value or its fault.
//!
//! The access file, the daemon's configuration and the client's file share these rules. Which names there are and what
//! their values mean is not known here. No memory is taken: a line's name and value are parts of the text.
//!
//! Start at `lines`; what the lines of a text are stands in `specs/Lines.antt`.
#![tactic(auto)]

mod cut;
mod fault;
mod line;
mod lines;
mod trim;

pub use fault::LineFault;
pub use lines::{Line, Lines};
pub use trim::{is_blank, trim_front, without_last};
