//! The serving daemon: turns are taken from a feed and served, one after another, until a limit is reached, the feed has ended or
//! something failed; each line of the log is written as it comes.
//!
//! What a turn does is not decided here, and no file is read: the configuration, the stanzas, the feed, the host and the sink of the
//! log are handed in.
//!
//! Start at `serving`; `specs/Serving.antt` says what a run of it does.
#![tactic(auto)]

mod laws;
mod opening;
mod serving;
mod session;
mod task;

pub use laws::what_serving_leaves_is_of_a_visit;
pub use serving::serve;
pub use task::Task;
