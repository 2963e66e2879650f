//! The trial: a dry run of the daemon over the lines of an input. Each line is one turn, which is served as the daemon serves it, over
//! a host in memory of which every start succeeds and every child ends well by the next line; what the daemon would start and stop
//! is printed.
//!
//! No child is started, nothing is kept, and no file is read: the configuration, the stanzas, the input and the output are handed
//! in.
//!
//! Start at `trying`; `specs/Trial.antt` says what a trial does, and `specs/Lines.antt` what its lines are.
#![tactic(auto)]

mod laws;
mod line;
mod session;
mod task;
mod trial_host;
mod trying;

pub use laws::{trials_are_determined, trials_of_one_input_have_one_log};
pub use task::TrialTask;
pub use trying::trial;
