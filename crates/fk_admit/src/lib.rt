//! Admission: which stanza lets a datagram in, for what and for how long, or why none does.
//!
//! A stanza grants where ten conditions hold, under the first of its pairs of keys in use that opens the datagram; stanzas are
//! tried in the order of the file, and the first that grants is taken.
//! No cipher step is made for a datagram whose HMAC no stanza has. Whether a datagram came before, and whether there is room
//! for its record, is no part of it.
//!
//! Start at `admitting`; the conditions stand in `specs/Conditions.antt`, and what is answered in `specs/Admit.antt`.
#![tactic(auto)]

mod admitting;
mod arriving;
mod asked;
mod conditions;
mod granting;
mod judging;
mod laws;
mod opening;
mod picking;
mod ports;
mod refusal;

pub use admitting::admit;
pub use laws::{one_pair_is_ten_conditions, the_first_that_grants_is_taken};
pub use refusal::{AdmitFault, Refusal};
