//! The fields of a packet, their rules, and the message that says who asks for which ports.
//!
//! Each type keeps the bounds that no check has to test; `Fields::check` tests the others, which come from outside. The text
//! that all fields are written in, and its digest, are no part of it.
//!
//! Start at `fields`; what fields may be stands in `specs/Fields.antt`, and what a message is in `specs/Message.antt`.
#![tactic(auto)]

mod fields;
mod laws;
mod message;
mod rand;

pub use fields::{Ask, FieldFault, Fields, is_user, is_version};
pub use laws::messages_are_found;
pub use message::{MessageFault, put_message, read_message};
pub use rand::Rand;
