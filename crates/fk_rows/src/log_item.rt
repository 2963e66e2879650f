//! The lines of a log, as rows write them: the name of the line and its values, in the order in which it prints them.
use crate::reading::{address, choice, moment, pair, purpose};
use fk_base::{Digest, Moment};
use fk_log::{LogItem, Tally, UsageFault};
use fk_row_text::{Arguments, RowFault};
use fk_trace::{LogWhy, OpenRecord};
use std::alloc::Global;

/// Where a line of a log goes.
pub(crate) trait Lines {
    fn put(&mut self, item: &LogItem<'_>);
}

/// Takes a line of a log, and puts it.
pub(crate) fn put_item<L: Lines>(alloc: Global, arguments: &mut Arguments<'_>, lines: &mut L) {
    let name = arguments.word();
    if !(put_of_turn(alloc, name, arguments, lines)
        || put_of_file(name, arguments, lines)
        || put_of_end(name, arguments, lines))
    {
        arguments.refuse(RowFault::NoWord);
    }
}

/// Lines of a turn and of a journal.
fn put_of_turn<L: Lines>(
    alloc: Global,
    name: &[u8],
    arguments: &mut Arguments<'_>,
    lines: &mut L,
) -> bool {
    match name {
        b"ready" => lines.put(&LogItem::Ready {
            live: arguments.number(u64::MAX),
        }),
        b"turn" | b"ended" | b"poll_failed" | b"settled" => {
            put_at_moment(name, arguments, lines);
        }
        b"refused" | b"granted" => put_of_datagram(name, arguments, lines),
        b"opened" | b"closed" => put_attempt(alloc, name, arguments, lines),
        b"listed" => put_listed(alloc, arguments, lines),
        _ => return false,
    }
    true
}

fn put_at_moment<L: Lines>(name: &[u8], arguments: &mut Arguments<'_>, lines: &mut L) {
    let Some(moment) = moment(arguments) else {
        return;
    };
    match name {
        b"turn" => lines.put(&LogItem::Turn {
            moment,
            number: arguments.number(u64::MAX),
        }),
        b"ended" => lines.put(&LogItem::Ended {
            moment,
            purpose: purpose(arguments),
            good: choice(arguments, b"good", b"bad"),
        }),
        b"poll_failed" => lines.put(&LogItem::PollFailed {
            moment,
            purpose: purpose(arguments),
        }),
        _ => lines.put(&LogItem::Settled {
            moment,
            id: arguments.number(u64::MAX),
        }),
    }
}

fn put_of_datagram<L: Lines>(name: &[u8], arguments: &mut Arguments<'_>, lines: &mut L) {
    let moment = moment(arguments);
    let source = address(arguments);
    let Some(moment) = moment else {
        return;
    };
    if name == b"refused".as_slice() {
        if let Some(why) = why(arguments) {
            lines.put(&LogItem::Refused {
                moment,
                source,
                why,
            });
        }
    } else {
        lines.put(&LogItem::Granted {
            moment,
            source,
            id: arguments.number(u64::MAX),
            stanza: arguments.number(u32::MAX as u64) as u32,
            due: arguments.number(u64::MAX),
        });
    }
}

fn why(arguments: &mut Arguments<'_>) -> Option<LogWhy> {
    Some(match arguments.word() {
        b"Shape" => LogWhy::Shape,
        b"Prefix" => LogWhy::Prefix,
        b"Replay" => LogWhy::Replay,
        b"NoStanza" => LogWhy::NoStanza,
        b"Expired" => LogWhy::Expired,
        b"Mac" => LogWhy::Mac,
        b"Cipher" => LogWhy::Cipher,
        b"Plain" => LogWhy::Plain,
        b"Kind" => LogWhy::Kind,
        b"Age" => LogWhy::Age,
        b"User" => LogWhy::User,
        b"Source" => LogWhy::Source,
        b"Port" => LogWhy::Port,
        b"Stale" => LogWhy::Stale,
        b"Full" => LogWhy::Full,
        _ => {
            arguments.refuse(RowFault::NoWord);
            return None;
        }
    })
}

/// A line that ends with the words of a command.
fn put_attempt<L: Lines>(alloc: Global, name: &[u8], arguments: &mut Arguments<'_>, lines: &mut L) {
    let moment = moment(arguments);
    let id = arguments.number(u64::MAX);
    let begun = choice(arguments, b"begun", b"failed");
    let words = &arguments.words(alloc);
    let Some(moment) = moment else {
        return;
    };
    if name == b"opened".as_slice() {
        lines.put(&LogItem::Opened {
            moment,
            id,
            words,
            begun,
        });
    } else {
        lines.put(&LogItem::Closed {
            moment,
            id,
            words,
            begun,
        });
    }
}

fn put_listed<L: Lines>(alloc: Global, arguments: &mut Arguments<'_>, lines: &mut L) {
    let id = arguments.number(u64::MAX);
    let moment = moment(arguments);
    let due = arguments.number(u64::MAX);
    let ip = address(arguments);
    let (Some(moment), Some(pair)) = (moment, pair(arguments)) else {
        return;
    };
    let item = OpenRecord {
        id,
        digest: Digest([0; 32]),
        stamp: 0,
        moment,
        due,
        ip,
        pair,
        close: arguments.words(alloc),
    };
    lines.put(&LogItem::Listed { item: &item });
}

/// Lines on words, files and inputs.
fn put_of_file<L: Lines>(name: &[u8], arguments: &mut Arguments<'_>, lines: &mut L) -> bool {
    match name {
        b"usage" => put_usage(arguments, lines),
        b"bad_file" => lines.put(&LogItem::BadFile {
            name: arguments.text(),
            line: arguments.number(u32::MAX as u64) as u32,
            what: arguments.text(),
        }),
        b"bad_line" => lines.put(&LogItem::BadLine {
            line: arguments.number(u64::MAX),
        }),
        b"long_input" => lines.put(&LogItem::LongInput {
            line: arguments.number(u64::MAX),
        }),
        b"file_missing" => lines.put(&LogItem::FileMissing {
            name: arguments.text(),
        }),
        b"file_failed" => lines.put(&LogItem::FileFailed {
            name: arguments.text(),
        }),
        _ => return false,
    }
    true
}

fn put_usage<L: Lines>(arguments: &mut Arguments<'_>, lines: &mut L) {
    let fault = match arguments.word() {
        b"Unknown" => UsageFault::Unknown(arguments.number(u64::MAX)),
        b"NoValue" => UsageFault::NoValue(arguments.number(u64::MAX)),
        b"Twice" => UsageFault::Twice(arguments.number(u64::MAX)),
        b"BadValue" => UsageFault::BadValue(arguments.number(u64::MAX)),
        b"Modes" => UsageFault::Modes,
        _ => {
            arguments.refuse(RowFault::NoWord);
            return;
        }
    };
    lines.put(&LogItem::Usage { fault });
}

/// Lines on how a run ended.
fn put_of_end<L: Lines>(name: &[u8], arguments: &mut Arguments<'_>, lines: &mut L) -> bool {
    match name {
        b"summary" => lines.put(&LogItem::Summary {
            turns: arguments.number(u64::MAX),
            tally: Tally {
                opens: arguments.number(u64::MAX),
                closes: arguments.number(u64::MAX),
                settled: arguments.number(u64::MAX),
                refused: arguments.number(u64::MAX),
            },
            live: arguments.number(u64::MAX),
        }),
        b"feed_failed" => lines.put(&LogItem::FeedFailed),
        b"disk_failed" => lines.put(&LogItem::DiskFailed),
        b"damaged" => lines.put(&LogItem::Damaged {
            place: arguments.number(u64::MAX),
        }),
        b"input_failed" => lines.put(&LogItem::InputFailed),
        _ => return false,
    }
    true
}
