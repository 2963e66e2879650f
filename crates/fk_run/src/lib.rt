//! What a run is: the places between its items, the turns that it took with their items and changes, which runs are legal,
//! how they may end, what a crash leaves of them, and what follows for whoever is let in and shut out, over one run and over all runs
//! that follow one another.
//!
//! Nothing runs here, and nothing is decided: what is granted is an argument. The code is the limits of a run and laws, each
//! the contract of an empty function; the rest is definitions, in `specs/`.
//!
//! Start at `specs/Place.antt` and read on in the order of `specs/Lib.antt`; `specs/Legal.antt` is what the daemon and the
//! trial are held to, `specs/Headline.antt` what follows from it, and `specs/History.antt` what follows over all runs.
#![tactic(auto)]

mod history;
mod laws;
mod limits;

pub use history::{histories_go_on, histories_keep_the_headline};
pub use laws::{
    legal_runs_keep_the_headline, legal_runs_leave_a_ledger, legal_runs_make_what_is_planned,
    legal_runs_tell_children_apart, what_is_granted_is_opened,
};
pub use limits::Limits;
