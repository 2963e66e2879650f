//! Why a program comes to nothing for its words or a file, and the one line that says so.
ghost use Rattle.std.specs.Prelude.{◌≡◌};
ghost use Rattle.fk_log.specs.Printing.{sink_by};
ghost use Rattle.fk_program.specs.Faults.{Tells, fault_of, fault_of_words};

use crate::say;
use fk_base::Status;
use fk_host::Sink;
use fk_log::{LogItem, UsageFault};
use fk_words::WordFault;

/// Why a program comes to nothing for its words or a file.
#[derive(Clone, Copy)]
pub enum Refusal<'a> {
    Words(UsageFault),
    /// The file of this name is not held.
    Missing(&'a [u8]),
    /// The file of this name could not be read.
    Failed(&'a [u8]),
    /// What is wrong in this line of the file of this name; lines are numbered from 1.
    BadFile {
        name: &'a [u8],
        line: u32,
        what: &'static [u8],
    },
    NoMemory,
}

/// The refusal of words that are no command.
pub fn refusal_of_words<'a>(fault: WordFault) -> Refusal<'a>
    ensures { fault_of result ≡ fault_of_words fault }
{
    match fault {
        WordFault::Unknown(place) => Refusal::Words(UsageFault::Unknown(place as u64)),
        WordFault::NoValue(place) => Refusal::Words(UsageFault::NoValue(place as u64)),
        WordFault::Twice(place) => Refusal::Words(UsageFault::Twice(place as u64)),
        WordFault::BadValue(place) => Refusal::Words(UsageFault::BadValue(place as u64)),
        WordFault::Modes => Refusal::Words(UsageFault::Modes),
        WordFault::NoMemory => Refusal::NoMemory,
    }
}

/// Says the refusal. Where memory is wanting nothing is written.
pub fn refuse<K: Sink>(refusal: Refusal<'_>, out: &mut K) -> Status
    ensures { let at = sink_by K.Sink in Tells (fault_of refusal.entry) (at out.old) (at out.new) result }
{
    match refusal {
        Refusal::Words(fault) => {
            say(&LogItem::Usage { fault }, out);
            Status::Usage
        }
        Refusal::Missing(name) => {
            say(&LogItem::FileMissing { name }, out);
            Status::FileFault
        }
        Refusal::Failed(name) => {
            say(&LogItem::FileFailed { name }, out);
            Status::FileFault
        }
        Refusal::BadFile { name, line, what } => {
            say(&LogItem::BadFile { name, line, what }, out);
            Status::Config
        }
        Refusal::NoMemory => Status::NoMemory,
    }
}
