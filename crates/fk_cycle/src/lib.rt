//! The machine that decides when a record's close is started again, and when the record is settled.
//!
//! It is told each turn, each start that was tried and each end of a child, and keeps what they say of each record whose
//! close is owed. It starts nothing, and knows no clock, host or file.
//!
//! Start at `machine`, and at `specs/Stands.antt` for what ties a machine to the trace; `laws` says what follows from that
//! tie.
#![tactic(auto)]

mod act;
mod dues;
mod kept;
mod laws;
mod machine;
mod records;

pub use act::{Act, CloseEnd};
pub use machine::Machine;
