//! What waits for a moment: numbers, each with the moment at which it falls due, taken out the earliest first.
//!
//! It reads no clock: who asks says which moment it is. What a number stands for is not known here.
//!
//! Start at `timer`; what waits in which order stands in `specs/Schedule.antt`.
#![tactic(auto)]

mod timer;

pub use timer::Timer;
