//! What a turn of the daemon did, in words that every layer shares: the items of the host's trace, the ledger of changes, when a
//! record is idle, what a datagram is answered, and which polls and attempts a turn is made of.
//!
//! Nothing runs here. The code is the types that a ledger and a refusal are made of; the rest is definitions, in `specs/`, and
//! lemmas on them, in `proofs/`. What a whole run is, and what follows for whoever is let in and shut out, is said in `fk_run`.
//!
//! Start at `specs/Trace.antt` and read on in the order of `specs/Lib.antt`.
#![tactic(auto)]

mod change;
mod refusal;

pub use change::{Change, OpenRecord};
pub use refusal::LogWhy;
