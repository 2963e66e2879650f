ghost use Rattle.std.specs.Prelude.{◌≡◌, ◌↔◌, ◌<◌, ◌≤◌, ◌-◌, [], ◌∷◌, ◌++◌, length, take, drop, min, unwrap_or, false, Some, None, IfOk, IsOk, IsErr, OnOk, OnErr, MatchResult};
ghost use Rattle.std.specs.Option.{option_copied};
ghost use Rattle.fk_host.specs.Count.{HasCause};
ghost use Rattle.fk_host.specs.Feed.{datagram_len, turns_of, GivesTurns, OpensAt, is_end_input, is_end};
ghost use Rattle.fk_memory.specs.Feed.{input_of, cut_turn, given_by, end_moment, IsNext, after_turn, after_next};

use fk_base::{Bytes, Failed, Ip4, Moment, NoMemory};
use fk_host::{DATAGRAM_ROOM, Feed, Input, Turn};
use std::alloc::Global;
use std::marker::Model;

/// A turn that a feed in memory has to give, with its datagram where it has one.
#[derive(Drop)]
struct HeldTurn {
    moment: Moment,
    source: Ip4,
    datagram: Option<Bytes>,
}

impl Model for HeldTurn {
    ghost use Rattle.fk_trace.specs.Decision.{FeedTurn};
    ghost use Rattle.fk_memory.specs.Feed.{input_of};

    ghost Value = { FeedTurn };

    ghost view = { λ t. record { moment = t.moment; input = input_of t.source t.datagram } };
}

impl HeldTurn {
    fn moment(&self) -> Moment
        ensures { result ≡ self.now.moment }
    {
        self.moment
    }

    /// Gives the turn, with its datagram's bytes at the front of the buffer.
    fn give(&self, buf: &mut [u8; DATAGRAM_ROOM]) -> Turn
        ensures within { datagram_len result.input ≤ DATAGRAM_ROOM }
        ensures turn { turns_of result buf.new ≡ cut_turn self.now ∷ [] }
        ensures behind { drop (datagram_len result.input) buf.new ≡ drop (datagram_len result.input) buf.old }
    {
        let input = match &self.datagram {
            Some(bytes) => Input::Datagram {
                source: self.source,
                len: copy_front(bytes.as_slice(), buf),
            },
            None => Input::Quiet,
        };
        Turn {
            moment: self.moment,
            input,
        }
    }
}

/// Copies the first bytes to the front of the buffer, as many as fit, and answers how many.
fn copy_front(bytes: &[u8], buf: &mut [u8; DATAGRAM_ROOM]) -> usize
    ensures within { result ≤ DATAGRAM_ROOM }
    ensures bytes { take result buf.new ≡ take DATAGRAM_ROOM bytes.now }
    ensures behind { drop result buf.new ≡ drop result buf.old }
{
    let len = bytes.len().min(DATAGRAM_ROOM);
    buf[..len].copy_from_slice(&bytes[..len]);
    len
}

/// A feed of turns in memory. One of its calls for a turn may be told to fail.
#[derive(Drop)]
pub struct MemFeed {
    alloc: Global,
    turns: Vec<HeldTurn>,
    // how many of the turns were given
    given: usize,
    fails_in: u64,
    port: Option<u16>,
    has_ended: bool,
    faults: u64,
}

impl Model for MemFeed {
    ghost use Rattle.std.specs.Prelude.{◌≤◌, length};
    ghost use Rattle.fk_memory.specs.Feed.{FeedState};

    ghost Value = { FeedState };

    ghost view = { λ f. record { turns = f.turns.items; given = f.given; fails_in = f.fails_in; port = f.port; has_ended = f.has_ended; faults = f.faults } };

    ghost invariant = { λ f. f.given ≤ length f.turns.items };
}

impl MemFeed {
    /// A feed without turns. The call for a turn of the given number fails, counted from 1.
    pub fn new(alloc: Global, fail_at: Option<u64>) -> Self
        ensures { result ≡ record { turns = []; given = 0; fails_in = unwrap_or fail_at 0; port = None; has_ended = false; faults = 0 } }
    {
        MemFeed {
            alloc,
            turns: Vec::new(alloc),
            given: 0,
            fails_in: fail_at.unwrap_or(0),
            port: None,
            has_ended: false,
            faults: 0,
        }
    }

    /// Adds a turn behind the others: a datagram of this source, or a quiet turn where there are no bytes.
    pub fn add(&mut self, moment: Moment, source: Ip4, bytes: Option<&[u8]>) -> Result<(), NoMemory>
        ensures ok { OnOk result (self.new ≡ record self.old { turns = self.old.turns ++ record { moment = moment; input = input_of source (option_copied bytes.entry) } ∷ [] }) }
        ensures err { OnErr result (self.new ≡ self.old) }
    {
        let datagram = match bytes {
            Some(bytes) => Some(Bytes::copy(self.alloc, bytes)?),
            None => None,
        };
        self.turns.push(HeldTurn {
            moment,
            source,
            datagram,
        })?;
        Ok(())
    }

    /// The port of its last opening.
    pub fn port(&self) -> Option<u16>
        ensures { result ≡ self.now.port }
    {
        self.port
    }

    /// The next turn, or behind the last one the end.
    fn give(&mut self, buf: &mut [u8; DATAGRAM_ROOM]) -> Turn
        ensures within { datagram_len result.input ≤ DATAGRAM_ROOM }
        ensures turn { IsNext self.old result buf.new }
        ensures state { self.new ≡ after_turn self.old }
        ensures end { self.new.has_ended ≡ is_end_input result.input }
        ensures behind { drop (datagram_len result.input) buf.new ≡ drop (datagram_len result.input) buf.old }
    {
        if self.given < self.turns.len() {
            let at = self.given;
            self.given += 1;
            self.has_ended = false;
            self.turns[at].give(buf)
        } else {
            self.has_ended = true;
            Turn {
                moment: self.end_moment(),
                input: Input::End,
            }
        }
    }

    fn end_moment(&self) -> Moment
        ensures { result ≡ end_moment self.now.turns }
    {
        match self.turns.last() {
            Some(turn) => turn.moment(),
            None => Moment::new(0).unwrap(),
        }
    }
}

impl Feed for MemFeed {
    ghost faults = { λ f. f.faults };

    ghost told = { given_by };

    ghost has_ended = { λ f. f.has_ended };

    fn open(&mut self, port: u16) -> Result<(), Failed>
        ensures ok { OnOk result (OpensAt port (given_by self.old) (given_by self.new)) }
        ensures kept { OnErr result (given_by self.new ≡ given_by self.old) }
        ensures end { self.new.has_ended ≡ false }
        ensures cause { HasCause self.old.faults self.new.faults result }
        // It never fails.
        ensures opened { IsOk result }
        ensures state { self.new ≡ record self.old { port = Some port; has_ended = false } }
    {
        self.port = Some(port);
        self.has_ended = false;
        Ok(())
    }

    fn next(&mut self, buf: &mut [u8; DATAGRAM_ROOM]) -> Result<Turn, Failed>
        ensures within { IfOk result (λ turn. datagram_len turn.input ≤ DATAGRAM_ROOM) }
        ensures given { IfOk result (λ turn. GivesTurns (turns_of turn buf.new) (given_by self.old) (given_by self.new)) }
        ensures kept { OnErr result (given_by self.new ≡ given_by self.old) }
        ensures end { self.new.has_ended ≡ is_end result }
        ensures cause { HasCause self.old.faults self.new.faults result }
        // It fails exactly where it was told to, and else gives its turns in order and then the end.
        ensures told { IsErr result ↔ (self.old.fails_in ≡ 1) }
        ensures turn { IfOk result (λ turn. IsNext self.old turn buf.new) }
        ensures state { self.new ≡ after_next self.old }
        // Behind the datagram the buffer is as before, and the whole of it where it failed.
        ensures behind { MatchResult result (λ turn. drop (datagram_len turn.input) buf.new ≡ drop (datagram_len turn.input) buf.old) (λ _. buf.new ≡ buf.old) }
    {
        let fails = self.fails_in == 1;
        self.fails_in = self.fails_in.saturating_sub(1);
        if fails {
            self.has_ended = false;
            self.faults = self.faults.saturating_add(1);
            return Err(Failed);
        }
        Ok(self.give(buf))
    }
}
