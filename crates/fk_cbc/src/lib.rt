//! Salted CBC with AES-256, whose key and IV come of a key and a salt by MD5: the form that `openssl enc -aes-256-cbc -md md5`
//! writes and reads.
//!
//! It gives no proof of who sealed: whoever changes a block changes the text, and the crate above has to test a MAC first. It
//! makes no salt and keeps no key.
//!
//! Start at `salted` for the two calls `seal` and `open`; what they mean stands in `specs/Seals.antt`, and why bytes don't open
//! in `specs/OpenFault.antt`.
#![tactic(auto)]

mod chain;
mod derivation;
mod open_fault;
mod opening;
mod padding;
mod salted;

pub use derivation::derive;
pub use open_fault::OpenFault;
pub use opening::{sealed_bytes_are_opened, sealed_bytes_have_len};
pub use salted::{one_plaintext, open, seal};
