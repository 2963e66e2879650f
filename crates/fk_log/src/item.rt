use crate::{Tally, UsageFault};
use fk_base::{Ip4, Moment, Purpose, Words};
use fk_trace::{LogWhy, OpenRecord};

/// One line of a log, with the values that it prints. Moments and dues are seconds since the start of 1970.
#[derive(Clone, Copy)]
pub enum LogItem<'a> {
    /// The run begins, with so many live records.
    Ready {
        live: u64,
    },
    /// A turn begins; turns are numbered from 1.
    Turn {
        moment: Moment,
        number: u64,
    },
    /// A child ended.
    Ended {
        moment: Moment,
        purpose: Purpose,
        good: bool,
    },
    /// A poll of a child failed.
    PollFailed {
        moment: Moment,
        purpose: Purpose,
    },
    /// The record is closed for good.
    Settled {
        moment: Moment,
        id: u64,
    },
    /// A datagram from this source was refused.
    Refused {
        moment: Moment,
        source: Ip4,
        why: LogWhy,
    },
    /// A datagram from this source was granted by this stanza and is recorded.
    Granted {
        moment: Moment,
        source: Ip4,
        id: u64,
        stanza: u32,
        due: u64,
    },
    /// The open of the record was attempted with these words; `begun` is false where no child began.
    Opened {
        moment: Moment,
        id: u64,
        words: &'a Words,
        begun: bool,
    },
    /// The close of the record was attempted with these words; `begun` is false where no child began.
    Closed {
        moment: Moment,
        id: u64,
        words: &'a Words,
        begun: bool,
    },
    /// The run is over, after so many turns and with so many live records.
    Summary {
        turns: u64,
        tally: Tally,
        live: u64,
    },
    /// A live record of a listing.
    Listed {
        item: &'a OpenRecord,
    },
    /// The words of the command line are no command.
    Usage {
        fault: UsageFault,
    },
    /// What is wrong in this line of the file of this name; lines are numbered from 1.
    BadFile {
        name: &'a [u8],
        line: u32,
        what: &'a [u8],
    },
    /// This line of a trial's input is none of its grammar.
    BadLine {
        line: u64,
    },
    /// A trial's input passes its limit in this line.
    LongInput {
        line: u64,
    },
    FileMissing {
        name: &'a [u8],
    },
    FileFailed {
        name: &'a [u8],
    },
    FeedFailed,
    DiskFailed,
    /// The journal is damaged at this place.
    Damaged {
        place: u64,
    },
    InputFailed,
}
