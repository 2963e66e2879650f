//! The client: the one packet that its words and its file ask for, sent or shown, and new keys.
//!
//! A value comes from the words, else from the named stanza of the client's file, else from its stanza `default`. The files, the
//! entropy, the link and the output come in as traits: no socket or clock is known here. What words are is said by `fk_words`, what
//! files are by `fk_conf`, and how a fault of them is told by `fk_program`.
//!
//! What else packs by a stanza of the client's file starts at `sealing_by`, and tells its faults by `refuse`.
//!
//! Start at `command`, whose one call the program makes; `specs/Running.antt` says what it does. `specs/Settle.antt` says where each
//! value comes from and what is needed, and `specs/Sent.antt` what the datagram is.
#![tactic(auto)]

mod command;
mod help;
mod key_making;
mod laws;
mod need_fault;
mod packing;
mod printing;
mod reading;
mod refusal;
mod sealed;
mod sealing;
mod sending;
mod sent;
mod settled;
mod settling;
mod stanzas;

pub use command::fwknop_run;
pub use key_making::make_keys;
pub use laws::version_has_its_text;
pub use need_fault::NeedFault;
pub use packing::{DRAWN_BYTES, packet};
pub use reading::sealing_by;
pub use refusal::{Refusal, refuse};
pub use sealed::Sealing;
pub use sealing::find_sealing;
pub use sent::Packet;
pub use settled::Settings;
pub use settling::settings;
