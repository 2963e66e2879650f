//! The ledger of granted datagrams on a journal: which digests were seen, which records are live, and what is owed for each.
//!
//! A record is on the disk before it counts, and its close is owed until a Done is. What a command does, and when a close is
//! due, is not known here; nor are bytes written but through the journal.
//!
//! Start at `ledger` for the calls, at `specs/Holds.antt` for what a disk holds, and at `specs/Stretch.antt` for what a crash at
//! any moment of a call may leave.
#![tactic(auto)]

mod anew;
mod changes;
mod compaction;
mod fault;
mod index;
mod laws;
mod ledger;
mod migration;
mod older;
mod outline;
mod owed;
mod reading;
mod writing;

pub use fault::RecordFault;
/// Why a ledger can't be opened or read. What is damaged is the area or an entry.
pub use fk_journal::JournalErr as LedgerErr;
pub use laws::{
    a_stretch_may_be_cut, adjoining_stretches_are_one, calls_that_leave_the_areas_are_a_stretch,
    no_area_holds_two_ledgers,
};
pub use ledger::Ledger;
pub use owed::Owed;
pub use reading::are_command_words;
