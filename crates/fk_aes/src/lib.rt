//! AES with keys of 256 bits (FIPS 197): the cipher and its inverse on one block, in place.
//!
//! It is no mode of operation and knows no padding: those belong to the crate above. It reads tables at places that depend on
//! the key and the block, so its running time may tell about them.
//!
//! Start at `key` for the three public calls, and in specs/ at `Cipher`, which is to be read beside the standard.
#![tactic(auto)]

mod column;
mod expansion;
mod key;
mod laws;
mod rounds;
mod state;
mod substitution;
mod tables;

pub use key::Key256;
pub use laws::{cipher_undoes_decipher, decipher_undoes_cipher};
