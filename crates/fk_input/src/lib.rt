//! The lines of a program's input, read in pieces, one line held at a time.
//!
//! The input is cut at each line feed. A last line without one counts, and nothing follows a last line feed; a carriage
//! return belongs to its line. A line has 1600 bytes at most and an input 67108864. No memory is taken. What a line
//! says is not known here.
//!
//! Start at `line_reader`.
#![tactic(auto)]

mod ahead;
mod fault;
mod laws;
mod line_reader;

pub use fault::{Fault, LineFault};
pub use laws::{reading_exists, reading_is_unique};
pub use line_reader::{LineReader, NextLine};
