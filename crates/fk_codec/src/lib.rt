//! The plaintext of a packet: all its fields in one text, with a digest of it at the end.
//!
//! `encode` writes the one plaintext of checked fields, and `decode` reads it back or names the first test that a text fails.
//! Nothing here is sealed, authenticated or allowed.
//!
//! Lines that spell fields in another way read their seconds by `find_seconds`, and print the fields by `put_front`.
//!
//! Start at `decode`. `specs/Spells.antt` joins a plaintext from its fields, and `specs/DecodeFault.antt` has the tests that
//! any other text fails.
#![tactic(auto)]

mod digest;
mod fault;
mod head;
mod laws;
mod reading;
mod tail;
mod writing;

pub use fault::DecodeFault;
pub use laws::{plaintexts_are_decoded, plaintexts_have_len};
pub use reading::decode;
pub use tail::find_seconds;
pub use writing::{encode, put_front};
