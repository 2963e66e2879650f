//! A run that goes on from turn to turn.
ghost use Rattle.std.specs.Prelude.{◌≡◌, ◌+◌, ◌<◌, ◌≤◌, ◌^◌, List, length, if◌then◌else◌};
ghost use Rattle.fk_trace.specs.declared.change.Change.{Change};
ghost use Rattle.fk_host.specs.Feed.{datagram_len};
ghost use Rattle.fk_run.specs.Place.{Place};
ghost use Rattle.fk_run.specs.Ending.{is_datagram};
ghost use Rattle.fk_log.specs.Log.{ending_lines};
ghost use Rattle.fk_log.specs.Writing.{Logs, output};
ghost use Rattle.fk_child.specs.View.{view_of};
ghost use Rattle.fk_turn.specs.Daemon.{AtRest};
ghost use Rattle.fk_turn.specs.Rules.{turn_of};
ghost use Rattle.fk_turn.specs.Serving.{OwesItsLive};
ghost use Rattle.fk_daemon.specs.Account.{AreLimits};
ghost use Rattle.fk_log.specs.Printing.{sink_by};
ghost use Rattle.fk_daemon.specs.Outside.{feed_by, outside_by};
ghost use Rattle.fk_daemon.specs.Serving.{HasStatus};
ghost use Rattle.fk_daemon.specs.Sessions.{AsksNext, Begins, BeginsSomehow, Finishes, IsFeedTurn, MayServe, SaysEnd, ServesTaken, ending_of, is_over, new_log, scene_of, standing_by, summary_by};

use crate::Task;
use fk_base::{Failed, Status};
use fk_host::{DATAGRAM_ROOM, Feed, Host, Input, Sink, Turn};
use fk_log::{LogItem, LogWriter, Verbosity, no_lines_log_nothing};
use fk_run::Limits;
use fk_turn::{Daemon, FeedInput, FeedTurn, TurnErr};

/// Why no further turn is served.
#[derive(Clone, Copy, Debug, PartialEq, Eq)]
pub(crate) enum Stop {
    Limit,
    End,
    FeedFault,
    DiskFault,
    NoMemory,
}

/// A run between two of its turns.
pub(crate) struct Session {
    daemon: Daemon,
    log: LogWriter,
    turns: u64,
    packets: u64,
}

/// The turns that are served where no limit is given.
const MOST_TURNS: u64 = 9_223_372_036_854_775_807;

impl Session {
    pub(crate) fn new(daemon: Daemon, verbosity: Verbosity) -> Session
        ensures { result ≡ record { daemon = daemon; log = new_log verbosity; turns = 0; packets = 0 } }
    {
        Session {
            daemon,
            log: LogWriter::new(verbosity),
            turns: 0,
            packets: 0,
        }
    }

    /// Opens the feed, and serves its turns until a limit is reached, it has ended, or something failed.
    pub(crate) fn run<E: Feed, H: Host, K: Sink>(
        &mut self,
        task: &Task<'_>,
        feed: &mut E,
        host: &mut H,
        out: &mut K,
    ) -> Stop
        requires begins { let at = standing_by E.Feed H.Disk K.Sink in
            BeginsSomehow task.now (at self.old feed.old host.old out.old) }
        requires limits { AreLimits task.now.limits }
        ensures { let at = standing_by E.Feed H.Disk K.Sink in
            (ledger : List Change) → Begins task.now ledger (at self.old feed.old host.old out.old)
            → Finishes task.now ledger result (at self.old feed.old host.old out.old) (at self.new feed.new host.new out.new) }
    {
        no_lines_log_nothing();
        if let Err(Failed) = feed.open(task.policy.conf.port) {
            return Stop::FeedFault;
        }
        let live = self.daemon.live() as u64;
        self.log.add(&LogItem::Ready { live }, out);
        let mut buffer = [0; DATAGRAM_ROOM];
        while !self.is_over(&task.limits) {
            if let Some(stop) = self.serve_next(task, &mut buffer, feed, host, out) {
                return stop;
            }
        }
        Stop::Limit
    }

    fn is_over(&self, limits: &Limits) -> bool
        ensures { result ≡ is_over limits.now self.now.turns self.now.packets }
    {
        let most = match limits.turns {
            Some(turns) => turns,
            None => MOST_TURNS,
        };
        most <= self.turns || matches!(limits.packets, Some(packets) if packets <= self.packets)
    }

    /// Asks the feed for a turn, and serves it.
    fn serve_next<E: Feed, H: Host, K: Sink>(
        &mut self,
        task: &Task<'_>,
        buffer: &mut [u8; DATAGRAM_ROOM],
        feed: &mut E,
        host: &mut H,
        out: &mut K,
    ) -> Option<Stop>
        requires { let at = standing_by E.Feed H.Disk K.Sink in
            MayServe task.now (at self.old feed.old host.old out.old) }
        ensures { let at = standing_by E.Feed H.Disk K.Sink in
            (place : Place) → AtRest task.now.policy.conf.now (scene_of (at self.old feed.old host.old out.old)) place
            → AsksNext task.now result place (at self.old feed.old host.old out.old) (at self.new feed.new host.new out.new) }
    {
        let Ok(turn) = feed.next(buffer) else {
            return Some(Stop::FeedFault);
        };
        match feed_turn(&turn, buffer) {
            None => Some(Stop::End),
            Some(taken) => self.serve_taken(task, &taken, feed, host, out),
        }
    }

    /// Serves a turn that was taken.
    fn serve_taken<E: Feed, H: Host, K: Sink>(
        &mut self,
        task: &Task<'_>,
        turn: &FeedTurn<'_>,
        feed: &E,
        host: &mut H,
        out: &mut K,
    ) -> Option<Stop>
        requires { let at = standing_by E.Feed H.Disk K.Sink in
            MayServe task.now (at self.old feed.now host.old out.old) }
        ensures { let at = standing_by E.Feed H.Disk K.Sink in
            (place : Place) → AtRest task.now.policy.conf.now (scene_of (at self.old feed.now host.old out.old)) place
            → ServesTaken task.now (turn_of turn.now) result place (at self.old feed.now host.old out.old) (at self.new feed.now host.new out.new) }
    {
        match self
            .daemon
            .serve(&task.policy, turn, host, &mut self.log, out)
        {
            Ok(()) => {
                self.count(turn);
                None
            }
            Err(TurnErr::Disk) => Some(Stop::DiskFault),
            Err(TurnErr::NoMemory) => Some(Stop::NoMemory),
        }
    }

    /// Counts a turn that was served.
    fn count(&mut self, turn: &FeedTurn<'_>)
        requires turns { self.old.turns < 2 ^ 63 }
        requires packets { self.old.packets ≤ self.old.turns }
        ensures { self.new ≡ record self.old {
          turns = self.old.turns + 1;
          packets = self.old.packets + (if is_datagram (turn_of turn.now).input then 1 else 0);
        } }
    {
        self.turns += 1;
        if let FeedInput::Datagram { .. } = turn.input {
            self.packets += 1;
        }
    }

    /// Writes the last line, and leaves every record on the disk.
    pub(crate) fn end<K: Sink>(mut self, stop: Stop, out: &mut K) -> Status
        requires { OwesItsLive self.daemon }
        ensures { let at = sink_by K.Sink in SaysEnd stop self (at out.old) (at out.new) result }
    {
        self.say_end(stop, out);
        let Session {
            daemon,
            log,
            turns: _,
            packets: _,
        } = self;
        daemon.park();
        status_of(stop, log.is_broken())
    }

    /// Writes the last line: a run that failed has no summary.
    fn say_end<K: Sink>(&mut self, stop: Stop, out: &mut K)
        ensures says { Logs (ending_lines (ending_of stop) (summary_by self.old)) (output self.old.log (K.written out.old) (K.faults out.old))
            (output self.new.log (K.written out.new) (K.faults out.new)) }
        ensures rest { self.new ≡ record self.old { log = self.new.log } }
    {
        no_lines_log_nothing();
        match stop {
            Stop::Limit | Stop::End => {
                let turns = self.turns;
                let tally = self.log.tally();
                let live = self.daemon.live() as u64;
                self.log.add(&LogItem::Summary { turns, tally, live }, out)
            }
            Stop::FeedFault => self.log.add(&LogItem::FeedFailed, out),
            Stop::DiskFault => self.log.add(&LogItem::DiskFailed, out),
            Stop::NoMemory => {}
        }
    }
}

/// A turn of the feed with the bytes of its datagram, or None at the feed's end.
fn feed_turn<'a>(turn: &Turn, buffer: &'a [u8]) -> Option<FeedTurn<'a>>
    requires { datagram_len turn.now.input ≤ length buffer.now }
    ensures { IsFeedTurn turn.now buffer.now result }
{
    let input = match turn.input {
        Input::End => return None,
        Input::Quiet => FeedInput::Quiet,
        Input::Datagram { source, len } => FeedInput::Datagram {
            source,
            bytes: &buffer[..len],
        },
    };
    Some(FeedTurn {
        moment: turn.moment,
        input,
    })
}

/// A write that failed shows only where the run would have ended well.
fn status_of(stop: Stop, is_broken: bool) -> Status
    ensures { HasStatus (ending_of stop) is_broken result }
{
    match stop {
        Stop::Limit | Stop::End if is_broken => Status::SinkFault,
        Stop::Limit | Stop::End => Status::Done,
        Stop::FeedFault => Status::FeedFault,
        Stop::DiskFault => Status::DiskFault,
        Stop::NoMemory => Status::NoMemory,
    }
}
