//! Client and daemon together: what a client sends under a stanza's keys is granted, where the stanza permits it.
//!
//! Nothing is decided here: the code is laws, each the contract of an empty function, and one call that says what the types of a
//! client's settings keep. That a datagram comes at all, that it comes for the first time, and that there is room for its record,
//! is no part of it.
//!
//! Start at `specs/Permits.antt`, which says what a stanza permits, and go on to `laws`.
#![tactic(auto)]

mod bounds;
mod laws;

pub use bounds::settings_are_within;
pub use laws::{
    every_request_has_a_datagram, only_what_is_permitted_is_granted, requests_have_shape,
    what_is_permitted_is_granted,
};
