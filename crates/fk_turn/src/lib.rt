//! One turn of the daemon: what runs is polled, what ended well is settled, what came is answered, and what is due is closed.
//!
//! It is the turn of the serving daemon and of the trial. Nothing is awaited here and no file is read: the turn, the host and the
//! sink of the log are handed in. When a run ends, and what it says then, is its caller's.
//!
//! Start at `daemon`; `specs/Daemon.antt` says where a daemon stands, and `specs/Serving.antt` what serving a turn does.
#![tactic(auto)]

mod beginning;
mod daemon;
mod decision;
mod feed_turn;
mod policy;
mod turn_err;

pub use daemon::Daemon;
pub use feed_turn::{FeedInput, FeedTurn};
pub use policy::Policy;
pub use turn_err::TurnErr;
