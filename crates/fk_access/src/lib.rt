//! The access file: stanzas that say who may open what, read whole or refused with the first fault and its line.
//!
//! A stanza is the list of lines from one SOURCE line to the next. Whether a packet is let in is not decided here, and no
//! file is opened.
//!
//! Start at `reading`; `specs/AccessTable.antt` has the table of the names, `specs/KeyPairs.antt` which lines belong to one pair
//! of keys, `specs/ReadsAccess.antt` what a stanza says, and `specs/AccessFault.antt` what is wrong with a file.
#![tactic(auto)]

mod access;
mod access_err;
mod access_name;
mod body;
mod key_ring;
mod laws;
mod net_list;
mod pair_lines;
mod pair_list;
mod reading;
mod sources;
mod stanza;
mod stanza_lacks;
mod stanza_of;

pub use access::{Access, STANZAS_LIMIT};
pub use access_err::{AccessErr, AccessWhat};
pub use key_ring::{KeyRing, RING_LIMIT, TimedKeys};
pub use laws::one_access_list;
pub use net_list::NetList;
pub use pair_list::PairList;
pub use reading::read_access;
pub use sources::Sources;
pub use stanza::Stanza;
