//! The disk's journal, read and not written: why it gives no ledger, and the line that says so.
//!
//! What a journal holds is said by `fk_ledger`. What is shown of it is no part of this crate.
//!
//! Start at `specs/Viewing.antt`.
#![tactic(auto)]

mod refusal;

pub use refusal::refuse_view;
