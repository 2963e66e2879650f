//! The values that every other crate speaks of: byte texts, numbers, moments, addresses, pairs of protocol and port.
//!
//! Each type keeps its own bounds, each reader accepts exactly the texts of its grammar and each writer appends the one
//! text of its value. No file, socket, clock or cipher is known here.
//!
//! Start at `bytes` for the two lists that hold memory, and at `decimal` for the shape of a reader and a writer.
#![tactic(auto)]

mod address;
mod bytes;
mod decimal;
mod digest;
mod file;
mod found;
mod grant;
mod hash_kind;
mod keys;
mod laws;
mod memory;
mod moment;
mod net;
mod net_text;
mod number_front;
mod pair;
mod pair_text;
mod pairs;
mod pairs_text;
mod parts;
mod purpose;
mod shape;
mod short_text;
mod status;
mod steps;

pub use address::{Ip4, put_ip, read_ip};
pub use bytes::{Bytes, Words};
pub use decimal::{NumFault, put_decimal, read_decimal, read_moment};
pub use digest::Digest;
pub use file::FILE_LIMIT;
pub use found::{find_ip, find_number, find_pair};
pub use grant::Grant;
pub use hash_kind::HashKind;
pub use keys::Keys;
pub use laws::{
    addresses_are_found, limits_have_their_numbers, numbers_are_found, pairs_are_found,
};
pub use memory::{Failed, NoMemory};
pub use moment::{GREATEST_MOMENT, LONGEST_TIME, Moment};
pub use net::Net4;
pub use net_text::read_net;
pub use pair::{Pair, Proto};
pub use pair_text::{put_pair, read_pair};
pub use pairs::{PAIRS_LIMIT, Pairs, PairsFull};
pub use pairs_text::{PAIRS_TEXT_ROOM, put_pairs};
pub use parts::Parts;
pub use purpose::Purpose;
pub use shape::ShapeFault;
pub use status::Status;
pub use steps::Steps;
