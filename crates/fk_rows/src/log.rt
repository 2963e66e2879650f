//! The calls of fk_log: single lines, and a log over several rows.
use crate::cutting_sink::CuttingSink;
use crate::log_item::{Lines, put_item};
use fk_log::{LogItem, LogWriter, Verbosity, render};
use fk_row_text::{Answer, Arguments, RowFault};
use std::alloc::Global;

/// Lines that are written one by one, whatever log they stand in.
#[derive(Drop)]
struct SingleLines {
    sink: CuttingSink,
    failed: bool,
}

impl Lines for SingleLines {
    fn put(&mut self, item: &LogItem<'_>) {
        self.failed = render(item, &mut self.sink).is_err();
    }
}

/// A log that was begun.
#[derive(Drop)]
pub(crate) struct Log {
    sink: CuttingSink,
    writer: LogWriter,
}

impl Lines for Log {
    fn put(&mut self, item: &LogItem<'_>) {
        self.writer.add(item, &mut self.sink);
    }
}

/// Makes the call of this name, where it is one of these.
pub(crate) fn call(
    alloc: Global,
    name: &[u8],
    log: &mut Option<Log>,
    arguments: &mut Arguments<'_>,
    answer: &mut Answer,
) -> bool {
    match name {
        b"render" => put_rendered(&rendered(alloc, None, usize::MAX, arguments), answer),
        b"render_within" => {
            let limit = size(arguments);
            put_rendered(&rendered(alloc, Some(limit), usize::MAX, arguments), answer);
        }
        b"render_by" => {
            let most = size(arguments);
            put_rendered(&rendered(alloc, None, most, arguments), answer);
        }
        b"writes" => {
            let most = size(arguments);
            answer.number(rendered(alloc, None, most, arguments).sink.writes());
        }
        b"log" => *log = Some(begun(alloc, arguments)),
        b"add" | b"logged" => call_begun(alloc, name, log.as_mut(), arguments, answer),
        _ => return false,
    }
    true
}

fn size(arguments: &mut Arguments<'_>) -> usize {
    arguments.number(usize::MAX as u64) as usize
}

/// A line in an output that takes `limit` bytes in all, where there is a limit, and `most` in one write.
fn rendered(
    alloc: Global,
    limit: Option<usize>,
    most: usize,
    arguments: &mut Arguments<'_>,
) -> SingleLines {
    let mut lines = SingleLines {
        sink: CuttingSink::new(alloc, limit, most),
        failed: false,
    };
    put_item(alloc, arguments, &mut lines);
    lines
}

/// What was written, and before it `Failed` where the output had no room for all.
fn put_rendered(lines: &SingleLines, answer: &mut Answer) {
    if lines.failed {
        answer.word(b"Failed");
    }
    answer.text(lines.sink.written());
}

/// `log VERBOSITY none` or `log VERBOSITY N`: an empty log, whose output has room for N bytes.
fn begun(alloc: Global, arguments: &mut Arguments<'_>) -> Log {
    let verbosity = verbosity(arguments);
    let limit = if arguments.takes(b"none") {
        None
    } else {
        Some(size(arguments))
    };
    Log {
        sink: CuttingSink::new(alloc, limit, usize::MAX),
        writer: LogWriter::new(verbosity),
    }
}

fn verbosity(arguments: &mut Arguments<'_>) -> Verbosity {
    match arguments.word() {
        b"Quiet" => Verbosity::Quiet,
        b"Normal" => Verbosity::Normal,
        b"Verbose" => Verbosity::Verbose,
        _ => {
            arguments.refuse(RowFault::NoWord);
            Verbosity::Normal
        }
    }
}

/// `add ITEM` or `logged`, of a log that was begun.
fn call_begun(
    alloc: Global,
    name: &[u8],
    log: Option<&mut Log>,
    arguments: &mut Arguments<'_>,
    answer: &mut Answer,
) {
    match log {
        Some(log) if name == b"add".as_slice() => put_item(alloc, arguments, log),
        Some(log) => put_log(log, answer),
        None => arguments.refuse(RowFault::Barred),
    }
}

/// What the log has written, whether a write failed, and how many opens, closes, settled records and refusals it has counted.
fn put_log(log: &Log, answer: &mut Answer) {
    answer.text(log.sink.written());
    answer.word(if log.writer.is_broken() {
        b"broken"
    } else {
        b"whole"
    });
    let tally = log.writer.tally();
    answer.number(tally.opens);
    answer.number(tally.closes);
    answer.number(tally.settled);
    answer.number(tally.refused);
}
