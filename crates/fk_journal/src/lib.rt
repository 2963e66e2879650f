//! A journal on one area of a disk: a list of entries that grows by one, whole or not at all, whenever a crash may come. Another list
//! may be copied into a second area and take its place, whole or not at all; a third area, Head, selects which of the two counts.
//!
//! An entry counts once its gate byte is open, and a gate is opened by a write of its own after all behind it is on the disk.
//! What an entry says is not known here.
//!
//! An area in the format before this one is read, so that what stands there can be put in its place in this format.
//!
//! Start at `specs/Entries.antt` for the bytes, and at `journal` for the calls.
#![tactic(auto)]

mod area;
mod copying;
mod entry;
mod fault;
mod journal;
mod laws;
mod older;

pub use entry::Entry;
pub use fault::JournalErr;
pub use journal::Journal;
pub use laws::{no_area_holds_two_lists, same_entries_are_held, what_is_written_is_held};
pub use older::{add_to_list, begin_list, close_list, read_older, replace};
