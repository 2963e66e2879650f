//! A trial that goes on from line to line.
ghost use Rattle.std.specs.Prelude.{◌≡◌, ℕ, ◌<◌, ◌≤◌, ◌^◌, ◌&&◌, not, List, IfOk, IfNone};
ghost use Rattle.fk_run.specs.Place.{Place};
ghost use Rattle.fk_run.specs.Turn.{TakenTurn};
ghost use Rattle.fk_input.specs.Lines.{input_limit};
ghost use Rattle.fk_log.specs.Printing.{sink_by};
ghost use Rattle.fk_log.specs.Writing.{Logs, output};
ghost use Rattle.fk_trial.specs.Replay.{IsNewHost};
ghost use Rattle.fk_trial.specs.Streams.{source_by, streams_by};
ghost use Rattle.fk_trial.specs.Trial.{HasStatus};
ghost use Rattle.fk_trial.specs.Sessions.{Begins, EndsSo, GoesOn, Going, GoingSomehow, HoldsPages, MayEnd, MayServe, MaySumUp, OpensDaemon, PrintsPage, RestsAt, SaysLast, Sends, ServesLine, Standing, Stopped, ending_of, last_lines, standing_by, summary_by};

use crate::TrialTask;
use crate::line::read_turn;
use crate::trial_host::TrialHost;
use fk_base::{NoMemory, Status};
use fk_conf::Conf;
use fk_host::{Sink, Source, write_all};
use fk_input::{LineReader, NextLine};
use fk_ledger::{Ledger, no_area_holds_two_ledgers};
use fk_log::{LogItem, LogWriter, no_lines_log_nothing};
use fk_memory::{MemSink, unscripted_children_end_well};
use fk_turn::{Daemon, Policy};
use std::alloc::Global;

/// Why no further line is served.
#[derive(Clone, Copy, Debug, PartialEq, Eq)]
pub(crate) enum Stop {
    End,
    BadLine,
    LongInput,
    ReadFault,
    NoMemory,
}

/// A trial between two of its turns.
pub(crate) struct Session {
    alloc: Global,
    reader: LineReader,
    daemon: Daemon,
    host: TrialHost,
    log: LogWriter,
    turns: u64,
    /// A write to the output has failed, so nothing more is written.
    is_broken: bool,
}

impl Session {
    /// Opens a ledger over a new host.
    pub(crate) fn begin(alloc: Global, conf: &Conf, log: LogWriter) -> Result<Session, NoMemory>
        ensures { IfOk result (Begins conf.now log) }
    {
        let mut host = TrialHost::new(alloc)?;
        let daemon = open_daemon(alloc, conf, &mut host)?;
        Ok(Session {
            alloc,
            reader: LineReader::new(),
            daemon,
            host,
            is_broken: log.is_broken(),
            log,
            turns: 0,
        })
    }

    /// Serves the lines of the input, one by one.
    pub(crate) fn serve_lines<I: Source, K: Sink>(
        &mut self,
        task: &TrialTask<'_>,
        input: &mut I,
        out: &mut K,
    ) -> Stop
        requires { let at = standing_by I.Source K.Sink in
            GoingSomehow task.now.policy (at self.old input.old out.old) }
        ensures { let at = standing_by I.Source K.Sink in
            (start : Standing) (turns : List TakenTurn) → Going task.now.policy turns start (at self.old input.old out.old)
            → Stopped task.now.policy result start (at self.new input.new out.new) }
    {
        loop {
            if let Some(stop) = self.serve_line(&task.policy, input, out) {
                return stop;
            }
        }
    }

    /// Reads the next line, and serves it.
    fn serve_line<I: Source, K: Sink>(
        &mut self,
        policy: &Policy<'_>,
        input: &mut I,
        out: &mut K,
    ) -> Option<Stop>
        requires { let at = standing_by I.Source K.Sink in
            GoingSomehow policy.now (at self.old input.old out.old) }
        ensures goes { let at = standing_by I.Source K.Sink in
            (start : Standing) (turns : List TakenTurn) → Going policy.now turns start (at self.old input.old out.old)
            → GoesOn policy.now result turns start (at self.new input.new out.new) }
        ensures progress { IfNone result (self.old.reader.offset < self.new.reader.offset) }
    {
        match self.reader.next(input) {
            NextLine::Line => self.serve_turn(policy, out),
            NextLine::End => Some(Stop::End),
            NextLine::LongLine => Some(Stop::BadLine),
            NextLine::LongInput => Some(Stop::LongInput),
            NextLine::Failed => Some(Stop::ReadFault),
        }
    }

    /// Serves the turn that the line says, and writes its lines.
    fn serve_turn<K: Sink>(&mut self, policy: &Policy<'_>, out: &mut K) -> Option<Stop>
        requires { let sink = sink_by K.Sink in MayServe policy.now.conf.now self.old (sink out.old) }
        ensures { let sink = sink_by K.Sink in
            (place : Place) → RestsAt policy.now.conf.now self.old.daemon self.old.host place
            → ServesLine policy.now result place self.old self.new (sink out.old) (sink out.new) }
    {
        let Some(turn) = read_turn(self.reader.line()) else {
            return Some(Stop::BadLine);
        };
        unscripted_children_end_well();
        let mut page = MemSink::new(self.alloc, None);
        match self
            .daemon
            .serve(policy, &turn, &mut self.host, &mut self.log, &mut page)
        {
            Ok(()) if !self.host.is_short() => self.print(page.written(), out),
            _ => Some(Stop::NoMemory),
        }
    }

    /// Writes the lines of a turn that was served, where no write has failed and the page could hold them.
    fn print<K: Sink>(&mut self, page: &[u8], out: &mut K) -> Option<Stop>
        requires { self.old.turns < 2 ^ 63 }
        ensures { let sink = sink_by K.Sink in PrintsPage page.now result self.old self.new (sink out.old) (sink out.new) }
    {
        if self.lacks_lines() {
            return Some(Stop::NoMemory);
        }
        self.is_broken = send(page, out, self.is_broken);
        self.turns += 1;
        None
    }

    /// Whether the page of a turn lacks lines that the output is to have.
    fn lacks_lines(&self) -> bool
        ensures { result ≡ (not self.now.is_broken && self.now.log.is_broken) }
    {
        !self.is_broken && self.log.is_broken()
    }

    /// Writes the last line, and leaves every record to the host.
    pub(crate) fn end<K: Sink>(mut self, stop: Stop, out: &mut K) -> Status
        requires { MayEnd stop self }
        ensures { let sink = sink_by K.Sink in EndsSo stop self result (sink out.old) (sink out.new) }
    {
        self.say_last(stop, out);
        let Session {
            alloc: _,
            reader: _,
            daemon,
            host: _,
            log: _,
            turns: _,
            is_broken,
        } = self;
        daemon.park();
        status_of(stop, is_broken)
    }

    /// Writes the last line, where there is one and no write has failed.
    fn say_last<K: Sink>(&mut self, stop: Stop, out: &mut K)
        requires few { self.old.turns ≤ input_limit }
        requires pages { MaySumUp stop (HoldsPages self.old) }
        ensures says { let sink = sink_by K.Sink in SaysLast stop self.old self.new (sink out.old) (sink out.new) }
        ensures rest { self.new ≡ record self.old { log = self.new.log; is_broken = self.new.is_broken } }
    {
        if !self.may_write() {
            return;
        }
        self.add_last(stop, out);
        self.is_broken = self.log.is_broken();
    }

    /// Whether no write has failed, to the output or to a page.
    fn may_write(&self) -> bool
        ensures { result ≡ (not self.now.is_broken && not self.now.log.is_broken) }
    {
        !self.is_broken && !self.log.is_broken()
    }

    /// Adds the last line: a summary where nothing failed, and none where memory was wanting.
    fn add_last<K: Sink>(&mut self, stop: Stop, out: &mut K)
        requires { self.old.turns ≤ input_limit }
        ensures says { Logs (last_lines stop self.old.turns (summary_by self.old)) (output self.old.log (K.written out.old) (K.faults out.old))
            (output self.new.log (K.written out.new) (K.faults out.new)) }
        ensures rest { self.new ≡ record self.old { log = self.new.log } }
    {
        no_lines_log_nothing();
        match stop {
            Stop::End => {
                let turns = self.turns;
                let tally = self.log.tally();
                let live = self.daemon.live() as u64;
                self.log.add(&LogItem::Summary { turns, tally, live }, out)
            }
            Stop::BadLine => {
                let line = self.turns + 1;
                self.log.add(&LogItem::BadLine { line }, out)
            }
            Stop::LongInput => {
                let line = self.turns + 1;
                self.log.add(&LogItem::LongInput { line }, out)
            }
            Stop::ReadFault => self.log.add(&LogItem::InputFailed, out),
            Stop::NoMemory => {}
        }
    }
}

/// Writes the text, where no write has failed before. Answers whether one has failed now.
fn send<K: Sink>(text: &[u8], out: &mut K, is_broken: bool) -> bool
    ensures { let sink = sink_by K.Sink in Sends text.now is_broken result (sink out.old) (sink out.new) }
{
    if is_broken {
        return true;
    }
    write_all(out, text).is_err()
}

/// A daemon over an empty ledger. What fails there is the host, where it wants memory.
fn open_daemon(alloc: Global, conf: &Conf, host: &mut TrialHost) -> Result<Daemon, NoMemory>
    requires { IsNewHost host.old }
    ensures { IfOk result (λ daemon. OpensDaemon conf.now daemon host.new) }
{
    no_area_holds_two_ledgers();
    let Ok((ledger, owed)) = Ledger::open(alloc, host, conf.room, conf.live, conf.keep) else {
        return Err(NoMemory);
    };
    if host.is_short() {
        ledger.park(owed);
        return Err(NoMemory);
    }
    match Daemon::resume(alloc, ledger, owed) {
        Ok(daemon) => Ok(daemon),
        Err((ledger, owed, error)) => {
            ledger.park(owed);
            Err(error)
        }
    }
}

/// A write that failed shows only where the run would have ended well.
fn status_of(stop: Stop, is_broken: bool) -> Status
    ensures { (line : ℕ) → HasStatus (ending_of stop line) is_broken result }
{
    match stop {
        Stop::End if is_broken => Status::SinkFault,
        Stop::End => Status::Done,
        Stop::BadLine | Stop::LongInput => Status::Config,
        Stop::ReadFault => Status::ReadFault,
        Stop::NoMemory => Status::NoMemory,
    }
}
