//! The programs' files of settings: the daemon's configuration and the client's file, each read whole or refused with its first fault
//! and that fault's line.
//!
//! A file's names and what their values may be stand in one table for each file. No file is opened here, and the access file, which
//! has stanzas of rules, is no part of it; nor are the words of the command lines, which `fk_words` reads.
//!
//! Start at `reading`, and for the client's file at `reading_rc`; `specs/Conf.antt` has the table of the configuration's names, and
//! `specs/RcTable.antt` that of the client's file, whose faults stand in `specs/RcFault.antt` and whose stanzas in `specs/ReadsRc.antt`.
#![tactic(auto)]

mod conf;
mod conf_err;
mod conf_name;
mod conf_settings;
mod fault_names;
mod rc_body;
mod rc_file;
mod rc_name;
mod rc_stanza;
mod rc_stanza_of;
mod reading;
mod reading_rc;

pub use conf::Conf;
pub use conf_err::{ConfErr, ConfWhat};
pub use fault_names::{conf_fault_name, line_fault_name};
pub use rc_file::{RC_STANZAS_LIMIT, RcFile};
pub use rc_stanza::RcStanza;
pub use reading::read_conf;
pub use reading_rc::read_rc;
