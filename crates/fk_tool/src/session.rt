//! An input that is answered line by line.
ghost use Rattle.std.specs.Prelude.{◌≡◌, ◌+◌, ◌<◌, ◌≤◌, [], Bool, false, IfNone, is_err};
ghost use Rattle.fk_client.specs.Outside.{entropy_by};
ghost use Rattle.fk_input.specs.Lines.{input_limit};
ghost use Rattle.fk_log.specs.Item.{line_of};
ghost use Rattle.fk_log.specs.Line.{line_text};
ghost use Rattle.fk_log.specs.Printing.{Prints, sink_by};
ghost use Rattle.fk_tool.specs.Streams.{Streams, last_text, stop_status, streams_by};
ghost use Rattle.fk_tool.specs.Sessions.{Adds, AnswersLine, GoesOn, Going, Standing, Stopped, standing_by};

use crate::answering::answer;
use crate::job::Job;
use crate::stop::Stop;
use crate::writing::write_line;
use fk_base::{Failed, Status};
use fk_host::{Entropy, Sink, Source};
use fk_input::{LineReader, NextLine};
use fk_log::{LogItem, render};
use std::alloc::Global;

/// An input between two of its lines.
#[derive(Drop)]
pub(crate) struct Session {
    reader: LineReader,
    /// How many lines were answered.
    lines: u64,
    /// A write to the output has failed, so nothing more is written.
    is_broken: bool,
}

impl Session {
    pub(crate) fn new() -> Self
        ensures { result ≡ record { reader = record { pending = []; line = []; offset = 0; ended = false }; lines = 0; is_broken = false } }
    {
        Session {
            reader: LineReader::new(),
            lines: 0,
            is_broken: false,
        }
    }

    /// Answers the lines of the input, one by one.
    pub(crate) fn answer_lines<N: Entropy, I: Source, K: Sink>(
        &mut self,
        alloc: Global,
        job: &Job,
        entropy: &mut N,
        input: &mut I,
        out: &mut K,
    ) -> Stop
        requires { let at = streams_by N.Entropy I.Source K.Sink in
            (start : Streams) × Going job.now start (standing_by self.old (at entropy.old input.old out.old)) }
        ensures { let at = streams_by N.Entropy I.Source K.Sink in
            (start : Streams) → Going job.now start (standing_by self.old (at entropy.old input.old out.old))
            → Stopped job.now result start (standing_by self.new (at entropy.new input.new out.new)) }
    {
        loop {
            if let Some(stop) = self.answer_next(alloc, job, entropy, input, out) {
                return stop;
            }
        }
    }

    /// Reads the next line, and answers it.
    fn answer_next<N: Entropy, I: Source, K: Sink>(
        &mut self,
        alloc: Global,
        job: &Job,
        entropy: &mut N,
        input: &mut I,
        out: &mut K,
    ) -> Option<Stop>
        requires { let at = streams_by N.Entropy I.Source K.Sink in
            (start : Streams) × Going job.now start (standing_by self.old (at entropy.old input.old out.old)) }
        ensures goes { let at = streams_by N.Entropy I.Source K.Sink in
            (start : Streams) → Going job.now start (standing_by self.old (at entropy.old input.old out.old))
            → GoesOn job.now result start (standing_by self.new (at entropy.new input.new out.new)) }
        ensures progress { IfNone result (self.old.reader.offset < self.new.reader.offset) }
    {
        match self.reader.next(input) {
            NextLine::Line => self.answer_line(alloc, job, entropy, out),
            NextLine::End => Some(Stop::End),
            NextLine::LongLine => Some(Stop::BadLine),
            NextLine::LongInput => Some(Stop::LongInput),
            NextLine::Failed => Some(Stop::ReadFault),
        }
    }

    /// Answers the line that was read last.
    fn answer_line<N: Entropy, K: Sink>(
        &mut self,
        alloc: Global,
        job: &Job,
        entropy: &mut N,
        out: &mut K,
    ) -> Option<Stop>
        requires { self.old.lines ≤ input_limit }
        ensures { let from = entropy_by N.Entropy in let at = sink_by K.Sink in
            AnswersLine job.now result self.old self.new (from entropy.old) (from entropy.new) (at out.old) (at out.new) }
    {
        match answer(alloc, job, self.reader.line(), entropy) {
            Ok(text) => {
                self.print(text.as_slice(), out);
                self.lines += 1;
                None
            }
            Err(stop) => Some(stop),
        }
    }

    /// Writes the text, where no write has failed before.
    fn print<K: Sink>(&mut self, text: &[u8], out: &mut K)
        ensures adds { let at = sink_by K.Sink in Adds text.now self.old.is_broken self.new.is_broken (at out.old) (at out.new) }
        ensures rest { self.new ≡ record self.old { is_broken = self.new.is_broken } }
    {
        if !self.is_broken {
            self.is_broken = write_line(text, out).is_err();
        }
    }

    /// Writes the last line, where there is one, and answers the status.
    pub(crate) fn end<K: Sink>(mut self, stop: Stop, out: &mut K) -> Status
        requires { self.lines ≤ input_limit }
        ensures { let at = sink_by K.Sink in (is_broken : Bool)
            × Adds (last_text stop (self.lines + 1)) self.is_broken is_broken (at out.old) (at out.new) × (result ≡ stop_status stop is_broken) }
    {
        if !self.is_broken {
            self.is_broken = say_last(stop, self.lines + 1, out).is_err();
        }
        status_of(stop, self.is_broken)
    }
}

/// Writes the last line: none at the input's end, and none where memory was wanting.
fn say_last<K: Sink>(stop: Stop, line: u64, out: &mut K) -> Result<(), Failed>
    ensures { let at = sink_by K.Sink in Prints (last_text stop line) (is_err result) (at out.old) (at out.new) }
{
    match stop {
        Stop::End | Stop::NoMemory => write_line(b"", out),
        Stop::BadLine => say(&LogItem::BadLine { line }, out),
        Stop::LongInput => say(&LogItem::LongInput { line }, out),
        Stop::ReadFault => say(&LogItem::InputFailed, out),
        Stop::EntropyFault => write_line(b"entropy failed\n", out),
    }
}

/// Writes the line of a log.
fn say<K: Sink>(item: &LogItem<'_>, out: &mut K) -> Result<(), Failed>
    ensures { let at = sink_by K.Sink in Prints (line_text (line_of item.now)) (is_err result) (at out.old) (at out.new) }
{
    render(item, out)
}

/// A write that failed shows only where the job would have ended well.
fn status_of(stop: Stop, is_broken: bool) -> Status
    ensures { result ≡ stop_status stop is_broken }
{
    match stop {
        Stop::End if is_broken => Status::SinkFault,
        Stop::End => Status::Done,
        Stop::BadLine | Stop::LongInput => Status::Config,
        Stop::ReadFault => Status::ReadFault,
        Stop::EntropyFault => Status::EntropyFault,
        Stop::NoMemory => Status::NoMemory,
    }
}
