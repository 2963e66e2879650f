ghost use Rattle.std.specs.Prelude.{◌≡◌, ◌≤◌, ℕ, true, not, Some, None};
ghost use Rattle.fk_trace.specs.Idle.{rests, ended_well};
ghost use Rattle.fk_cycle.specs.Kept.{noted_begun, noted_not_begun, noted_ended, may_begin, has_running, is_ready};
ghost use Rattle.fk_cycle.specs.Private.{stored, kept_at, IsStep};
ghost use Rattle.fk_cycle.specs.Acts.{act_for_close};

use crate::{Act, CloseEnd};
use fk_base::{Moment, Purpose};
use std::marker::Model;

/// How many seconds a record rests after a close of it that ended badly: `rest` of the definition of an idle record.
const REST: u64 = 10;

/// How and when a close ended.
#[derive(Clone, Copy)]
struct LastClose {
    good: bool,
    moment: u64,
}

impl Model for LastClose {
    ghost use Rattle.fk_trace.specs.Idle.{End};

    ghost Value = { End };

    ghost view = { λ e. record { good = e.good; moment = e.moment } };

    ghost inverse = { λ e. record { good = e.good; moment = e.moment } };
}

/// What is kept for one record.
#[derive(Drop)]
pub(crate) struct Kept {
    id: u64,
    due: u64,
    open_runs: bool,
    close: Option<bool>,
    last_close: Option<LastClose>,
    // the number of the turn in which a close of it was attempted last, and 0 before the first
    tried_in: u64,
}

impl Model for Kept {
    ghost use Rattle.fk_cycle.specs.Private.{Stored};

    ghost Value = { Stored };

    ghost view = { λ k. record {
      id = k.id;
      due = k.due;
      open_runs = k.open_runs;
      close = k.close;
      last_close = k.last_close;
      tried_in = k.tried_in;
    } };
}

impl Kept {
    pub(crate) fn new(id: u64, due: u64) -> Self
        ensures { result ≡ stored id due }
    {
        Kept {
            id,
            due,
            open_runs: false,
            close: None,
            last_close: None,
            tried_in: 0,
        }
    }

    pub(crate) fn id(&self) -> u64
        ensures { result ≡ self.now.id }
    {
        self.id
    }

    pub(crate) fn due(&self) -> u64
        ensures { result ≡ self.now.due }
    {
        self.due
    }

    /// Forgets in which turn a close was attempted.
    pub(crate) fn forget_turn(&mut self)
        ensures { self.new ≡ record self.old { tried_in = 0 } }
    {
        self.tried_in = 0;
    }

    pub(crate) fn begun(&mut self, purpose: Purpose, turn: u64)
        ensures { IsStep turn (noted_begun purpose) self.old self.new }
    {
        match purpose {
            Purpose::Open(id) if id == self.id => self.open_runs = true,
            Purpose::Close(id) if id == self.id => self.close_begun(turn),
            _ => {}
        }
    }

    /// No child began. An open that was not begun leaves nothing to note.
    pub(crate) fn not_begun(&mut self, purpose: Purpose, turn: u64)
        ensures { IsStep turn (noted_not_begun purpose) self.old self.new }
    {
        if purpose == Purpose::Close(self.id) {
            self.tried_in = turn;
        }
    }

    fn close_begun(&mut self, turn: u64)
        ensures { self.new ≡ record self.old { close = Some (not self.old.open_runs); tried_in = turn } }
    {
        self.close = Some(!self.open_runs);
        self.tried_in = turn;
    }

    pub(crate) fn ended(&mut self, purpose: Purpose, good: bool, moment: Moment)
        ensures { (turn : ℕ) → IsStep turn (noted_ended purpose good moment) self.old self.new }
    {
        match purpose {
            Purpose::Open(id) if id == self.id => self.open_runs = false,
            Purpose::Close(id) if id == self.id => self.close_ended(good, moment.get()),
            _ => {}
        }
    }

    fn close_ended(&mut self, good: bool, moment: u64)
        ensures { self.new ≡ record self.old { close = None; last_close = Some (record { good = good; moment = moment }) } }
    {
        self.close = None;
        self.last_close = Some(LastClose { good, moment });
    }

    /// A child for this purpose may begin.
    pub(crate) fn may_begin(&self, purpose: Purpose) -> bool
        ensures { (turn : ℕ) → result ≡ may_begin purpose (kept_at turn self.now) }
    {
        match purpose {
            Purpose::Open(id) => id == self.id && !self.open_runs && self.close.is_none(),
            Purpose::Close(id) => id == self.id && self.close.is_none(),
        }
    }

    /// A child for this purpose runs.
    pub(crate) fn has_running(&self, purpose: Purpose) -> bool
        ensures { (turn : ℕ) → result ≡ has_running purpose (kept_at turn self.now) }
    {
        match purpose {
            Purpose::Open(id) => id == self.id && self.open_runs,
            Purpose::Close(id) => id == self.id && self.close.is_some(),
        }
    }

    /// What follows where the close that runs ends well.
    pub(crate) fn act(&self) -> Act
        ensures { result ≡ act_for_close self.now.id self.now.open_runs self.now.close }
    {
        match self.close {
            None => Act::Nothing,
            Some(true) => Act::Settle(CloseEnd::new(self.id)),
            Some(false) => {
                if self.open_runs {
                    Act::Wait
                } else {
                    Act::Nothing
                }
            }
        }
    }

    /// A close may be attempted at this moment of the turn with this number.
    pub(crate) fn is_ready(&self, moment: u64, turn: u64) -> bool
        ensures { result ≡ is_ready moment (kept_at turn self.now) }
    {
        self.close.is_none()
            && !(self.open_runs && ended_well(self.last_close))
            && !rests(self.last_close, moment)
            && self.due <= moment
            && self.tried_in != turn
    }
}

fn ended_well(last_close: Option<LastClose>) -> bool
    ensures { result ≡ ended_well last_close }
{
    match last_close {
        None => false,
        Some(end) => end.good,
    }
}

/// Where the clock stands before that end, it does not count.
fn rests(last_close: Option<LastClose>, moment: u64) -> bool
    ensures { result ≡ rests last_close moment }
{
    match last_close {
        None => false,
        Some(end) => !end.good && end.moment <= moment && moment - end.moment < REST,
    }
}
