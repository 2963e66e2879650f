//! The datagram of a packet: a plaintext that is sealed and authenticated under one pair of keys.
//!
//! `pack` makes it, `shape` tests what no key is needed for, and `unpack` opens it: no block is deciphered before the HMAC was
//! found right. Who may use which keys, and whether a packet is fresh, is no part of it; no salt is made here.
//!
//! Start at `unpack`. What a datagram is stands in `specs/Packs.antt`, and the tests in their order in `specs/Shape.antt` and
//! `specs/Opens.antt`.
#![tactic(auto)]

mod fault;
mod laws;
mod opening;
mod packet_shape;
mod packing;
mod sealed;

pub use fault::PacketFault;
pub use laws::{datagrams_are_opened, datagrams_have_shape, one_packet};
pub use opening::{open_under, unpack};
pub use packet_shape::{PacketShape, shape};
pub use packing::pack;
