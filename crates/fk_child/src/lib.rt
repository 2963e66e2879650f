//! The children that a daemon supervises: the opens and closes of its records, started, polled and settled in the order of a
//! turn, over a host that is handed in.
//!
//! A crew holds the obligation of each live record, so that none is lost between two calls. It grants nothing, reads no
//! datagram and writes no line; which record is made is its caller's.
//!
//! Start at `crew`; `specs/Crew.antt` says what ties a crew to a place of a run, and `specs/Calls.antt` what each call adds to it.
#![tactic(auto)]

mod crew;
mod items;
mod laws;
mod obligations;

pub use crew::Crew;
pub use items::{EndItem, PollEnd, Tried};
pub use laws::{adjoining_calls_add_up, due_closes_are_attempted_in_order, no_calls_add_nothing};
