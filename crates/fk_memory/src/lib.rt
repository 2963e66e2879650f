//! The outside in memory: an object for each trait of `fk_host`, which tells its content and fails where it is told to. The trial
//! runs over them, and so do tests.
//!
//! Nothing of the system is called here: what stands over it is in `fk_system`. What the bytes mean is not known here.
//!
//! Start at `source`, `sink`, `files`, `feed`, `link` and `entropy`. `host` has the disk, of which each call is kept, and the
//! host above it; its children are in `children`, and its trace is in `trace`.
#![tactic(auto)]

mod children;
mod entropy;
mod feed;
mod files;
mod host;
mod laws;
mod link;
mod sink;
mod source;
mod trace;

pub use children::{HeldChild, StartScript};
pub use entropy::MemEntropy;
pub use feed::MemFeed;
pub use files::MemFiles;
pub use host::{FailingCall, MemHost};
pub use laws::unscripted_children_end_well;
pub use link::MemLink;
pub use sink::MemSink;
pub use source::MemSource;
