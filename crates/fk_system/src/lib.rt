//! The outside of the system: an adapter for each trait of `fk_host`, and the clock. Only programs stand on it.
//!
//! An adapter counts its faults, and tells nothing of its content: what it reads, writes, starts, receives, sends and draws is
//! trusted and not proved. What the bytes mean is not known here.
//!
//! Start at `standard`, which has a source and a sink over the standard streams that `streams` looks after, at `directory_files`,
//! `udp_feed`, `udp_link` and `entropy`. `host` stands on `area_files`, the journal's files and their lock, and on `children`, the
//! processes that it starts.
#![tactic(auto)]

mod area_files;
mod children;
mod clock;
mod directory_files;
mod entropy;
mod host;
mod standard;
mod streams;
mod udp_feed;
mod udp_link;
mod waiting;

pub use clock::system_moment;
pub use directory_files::DirFiles;
pub use entropy::SysEntropy;
pub use host::SysHost;
pub use standard::{StdSink, StdSource};
pub use streams::{TimedOutput, take_closed_streams};
pub use udp_feed::UdpFeed;
pub use udp_link::UdpLink;
