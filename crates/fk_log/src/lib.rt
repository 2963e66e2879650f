//! The log: each line that the daemon and the trial print, as a value and as a text, and the lines of a whole run as a
//! function of its turns, its changes and its end.
//!
//! A log writes to a sink and takes no memory. Nothing is decided here, and what is wrong in a configuration file comes as a
//! text. The lines of the client and of the tool are not here.
//!
//! Start at `specs/Line.antt`, which has the lines, and at `specs/Log.antt`, which says what a run prints; `item` has the
//! values, `line` writes one, and `writer` keeps a log.
#![tactic(auto)]

mod draft;
mod item;
mod laws;
mod line;
mod piece;
mod tally;
mod usage_fault;
mod verbosity;
mod writer;

pub use item::LogItem;
pub use laws::{adjoining_lines_log_both, no_lines_log_nothing, turns_are_logged_in_order};
pub use line::render;
pub use tally::Tally;
pub use usage_fault::UsageFault;
pub use verbosity::Verbosity;
pub use writer::LogWriter;
