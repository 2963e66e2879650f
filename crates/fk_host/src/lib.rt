//! The outside, seen as traits with a written meaning: a source of bytes, a sink for bytes, files, the disk under a journal
//! and the host above it, which starts children, the feed that gives turns, the link that sends datagrams, and entropy.
//!
//! Each trait has a count of faults. A call answers `Failed` only where its object's count rose in that call, so code
//! that is generic over the trait cannot give up by itself. No object stands here: those in memory are in `fk_memory`, and those
//! over the system in `fk_system`. What the bytes mean is not known here.
//!
//! Start at `stream`, which has the source and the sink, at `files`, at `disk` and then `host`, at `feed`, `link` and `entropy`.
#![tactic(auto)]

mod disk;
mod entropy;
mod feed;
mod files;
mod host;
mod laws;
mod link;
mod stream;

pub use disk::{Area, Disk};
pub use entropy::Entropy;
pub use feed::{DATAGRAM_ROOM, Feed, Input, Turn};
pub use files::{FileErr, Files, HeldFile};
pub use host::{ChildId, Host, StartErr};
pub use laws::datagrams_have_their_room;
pub use link::Link;
pub use stream::{Sink, Source, write_all};
