//! The objects in memory that a session is played over, and the traits by which they are called.

pub use fk_host::{
    Area, DATAGRAM_ROOM, Disk, Entropy, Feed, FileErr, Files, Input, Link, Sink, Source, Turn,
    write_all,
};
pub use fk_memory::{
    MemEntropy, MemFeed, MemFiles, MemHost, MemLink, MemSink, MemSource, StartScript,
};
