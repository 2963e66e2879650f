ghost use Rattle.std.specs.Prelude.{◌≡◌, ◌==◌, ℕ, ◌+◌, ◌<◌, ◌≤◌, ◌^◌, ◌∷◌, [], List, Some, length, IfOk, IfErr};
ghost use Rattle.std.specs.List.{find};
ghost use Rattle.fk_base.specs.declared.grant.Grant.{Grant as GivenGrant};
ghost use Rattle.fk_trace.specs.declared.change.OpenRecord.{OpenRecord};
ghost use Rattle.fk_trace.specs.declared.change.Change.TheVariants.{Open as OpenChange};
ghost use Rattle.fk_trace.specs.Ledger.{floor_of, live, IsLedger, MayMake};
ghost use Rattle.fk_run.specs.Place.{Place, entry};
ghost use Rattle.fk_host.specs.Disk.{Above};
ghost use Rattle.fk_log.specs.Line.Line.{ClosedLine};
ghost use Rattle.fk_log.specs.Writing.{Logs, output};
ghost use Rattle.fk_conf.specs.declared.conf.Conf.{Conf};
ghost use Rattle.fk_ledger.specs.Book.{live_ids};
ghost use Rattle.fk_ledger.specs.Payloads.{greatest_stamp};
ghost use Rattle.fk_child.specs.View.{view_of};
ghost use Rattle.fk_child.specs.Crew.{IsTied};
ghost use Rattle.fk_turn.specs.declared.policy.Policy.{Policy as GivenPolicy};
ghost use Rattle.fk_turn.specs.Daemon.{DaemonStands, AtRest, Rests, RestsSomehow, StandsSomehow, scene_by, output_by};
ghost use Rattle.fk_turn.specs.Serving.{OwesItsLive, TakesTurn};
ghost use Rattle.fk_turn.specs.Parts.{Answers, BeginsTurn, Closes, IsDraftOf, IsGrantedBy, IsLike, IsReadyFor, Settles, datagram_turn};
ghost use Rattle.fk_turn.specs.Rules.{turn_of};

use crate::beginning::tell_ends;
use crate::decision::{Decision, Draft, decide, make_draft};
use crate::{FeedInput, FeedTurn, Policy, TurnErr};
use fk_base::{Failed, Grant, Ip4, Moment, NoMemory};
use fk_child::{Crew, Tried};
use fk_host::{Host, Sink};
use fk_ledger::{Ledger, Owed, RecordFault};
use fk_log::{LogItem, LogWriter};
use fk_mac::packet_digest;
use fk_trace::LogWhy;
use std::alloc::Global;
use std::marker::Model;

/// What a daemon keeps from turn to turn: its ledger, and the crew that holds what is owed.
pub struct Daemon {
    alloc: Global,
    ledger: Ledger,
    crew: Crew,
    turns: u64,
}

impl Model for Daemon {
    ghost use Rattle.fk_turn.specs.Daemon.{DaemonState};

    ghost Value = { DaemonState };

    ghost view = { λ d. record { book = d.ledger; crew = d.crew; turns = d.turns } };
}

impl Daemon {
    /// A daemon over a ledger that was just opened, with what it owes. An error hands both back.
    pub fn resume(
        alloc: Global,
        ledger: Ledger,
        owed: Vec<Owed>,
    ) -> Result<Daemon, (Ledger, Vec<Owed>, NoMemory)>
        requires owed { owed.items ≡ live_ids ledger.changes }
        requires follow { IsLedger ledger.changes }
        ensures book { IfOk result (λ daemon. (daemon.book ≡ ledger) × (daemon.turns ≡ 0)) }
        ensures crew { IfOk result (λ daemon. (above : Above) → IsTied daemon.crew above (entry ledger.changes)) }
        ensures settled { IfOk result (λ daemon. daemon.crew.unsettled ≡ []) }
        ensures err { IfErr result (λ e. (e.0 ≡ ledger) × (e.1.items ≡ owed.items)) }
    {
        match Crew::resume(alloc, &ledger, owed) {
            Ok(crew) => Ok(Daemon {
                alloc,
                ledger,
                crew,
                turns: 0,
            }),
            Err((owed, error)) => Err((ledger, owed, error)),
        }
    }

    /// How many records are live.
    pub fn live(&self) -> usize
        ensures { result ≡ length (live self.now.book.changes) }
    {
        self.ledger.live()
    }

    /// Serves one turn. After an error the run is over.
    pub fn serve<H: Host, K: Sink>(
        &mut self,
        policy: &Policy<'_>,
        turn: &FeedTurn<'_>,
        host: &mut H,
        log: &mut LogWriter,
        out: &mut K,
    ) -> Result<(), TurnErr>
        requires rests { let at = scene_by H.Disk K.Sink in
            Rests policy.now.conf.now (at self.old host.old log.old out.old) }
        requires fits { self.old.turns < 2 ^ 63 }
        ensures serves { let at = scene_by H.Disk K.Sink in
            TakesTurn policy.now turn.now result (at self.old host.old log.old out.old) (at self.new host.new log.new out.new) }
    {
        self.begin(turn.moment, host, log, out);
        if let Err(Failed) = self.settle(turn.moment, host, log, out) {
            return Err(TurnErr::Disk);
        }
        self.answer(policy, turn, host, log, out)?;
        self.close(turn.moment, host, log, out)?;
        self.turns += 1;
        Ok(())
    }

    /// Leaves every record on the disk, and ends.
    pub fn park(self)
        requires { OwesItsLive self }
    {
        let Daemon {
            alloc: _,
            ledger,
            crew,
            turns: _,
        } = self;
        ledger.park(crew.release());
    }

    /// Marks the turn and polls each child that runs.
    fn begin<H: Host, K: Sink>(
        &mut self,
        moment: Moment,
        host: &mut H,
        log: &mut LogWriter,
        out: &mut K,
    )
        requires rests { let at = scene_by H.Disk K.Sink in
            RestsSomehow (at self.old host.old log.old out.old) }
        requires fits { self.old.turns < 2 ^ 63 }
        ensures { let at = scene_by H.Disk K.Sink in
            (conf : Conf) (place : Place) → AtRest conf (at self.old host.old log.old out.old) place
            → BeginsTurn conf moment place (at self.old host.old log.old out.old) (at self.new host.new log.new out.new) }
    {
        let number = self.turns + 1;
        log.add(&LogItem::Turn { moment, number }, out);
        self.crew.turn(host, number);
        self.crew.poll_all(host, moment);
        tell_ends(self.crew.ends(), moment, log, out);
    }

    /// Settles each record whose clean close has ended well.
    fn settle<H: Host, K: Sink>(
        &mut self,
        moment: Moment,
        host: &mut H,
        log: &mut LogWriter,
        out: &mut K,
    ) -> Result<(), Failed>
        requires { let at = scene_by H.Disk K.Sink in
            StandsSomehow (at self.old host.old log.old out.old) }
        ensures { let at = scene_by H.Disk K.Sink in
            (conf : Conf) (place : Place) → DaemonStands conf (at self.old host.old log.old out.old) place
            → Settles conf moment place (at self.old host.old log.old out.old) (at self.new host.new log.new out.new) result }
    {
        while let Some(id) = self.crew.settle_next(host, &mut self.ledger)? {
            log.add(&LogItem::Settled { moment, id }, out);
        }
        Ok(())
    }

    /// Answers what the turn brought.
    fn answer<H: Host, K: Sink>(
        &mut self,
        policy: &Policy<'_>,
        turn: &FeedTurn<'_>,
        host: &mut H,
        log: &mut LogWriter,
        out: &mut K,
    ) -> Result<(), TurnErr>
        requires { let at = scene_by H.Disk K.Sink in
            Rests policy.now.conf.now (at self.old host.old log.old out.old) }
        ensures { let at = scene_by H.Disk K.Sink in
            (place : Place) → AtRest policy.now.conf.now (at self.old host.old log.old out.old) place
            → Answers policy.now place (turn_of turn.now) (at self.old host.old log.old out.old) (at self.new host.new log.new out.new) result }
    {
        match turn.input {
            FeedInput::Quiet => Ok(()),
            FeedInput::Datagram { source, bytes } => {
                self.answer_datagram(policy, turn.moment, source, bytes, host, log, out)
            }
        }
    }

    /// Refuses a datagram, or records it and starts its open. All memory is asked for before the record is made, but what the host's
    /// start asks for.
    fn answer_datagram<H: Host, K: Sink>(
        &mut self,
        policy: &Policy<'_>,
        moment: Moment,
        source: Ip4,
        bytes: &[u8],
        host: &mut H,
        log: &mut LogWriter,
        out: &mut K,
    ) -> Result<(), TurnErr>
        requires { let at = scene_by H.Disk K.Sink in
            Rests policy.now.conf.now (at self.old host.old log.old out.old) }
        ensures { let at = scene_by H.Disk K.Sink in
            (place : Place) → AtRest policy.now.conf.now (at self.old host.old log.old out.old) place
            → Answers policy.now place (datagram_turn moment source bytes.now) (at self.old host.old log.old out.old) (at self.new host.new log.new out.new) result }
    {
        match decide(self.alloc, policy, &self.ledger, moment, source, bytes)? {
            Decision::Refused(why) => {
                log.add(
                    &LogItem::Refused {
                        moment,
                        source,
                        why,
                    },
                    out,
                );
                Ok(())
            }
            Decision::Granted(grant) => {
                let draft = self.prepare(policy, moment, bytes, &grant)?;
                self.open(moment, source, grant.stanza, draft, host, log, out)
            }
        }
    }

    /// Makes the record of a granted datagram, and room for it.
    fn prepare(
        &mut self,
        policy: &Policy<'_>,
        moment: Moment,
        bytes: &[u8],
        grant: &Grant,
    ) -> Result<Draft, NoMemory>
        requires { (1 ≤ grant.now.stanza) × (grant.now.stanza ≤ length policy.now.access.now) }
        ensures draft { IfOk result (IsDraftOf policy.now self.old.book.changes moment bytes.now grant.now) }
        ensures ready { IfOk result (λ draft. IsReadyFor draft self.new) }
        ensures rest { IsLike self.old self.new }
    {
        let draft = make_draft(
            self.alloc,
            policy,
            self.ledger.next_id(),
            packet_digest(bytes),
            moment,
            grant,
        )?;
        self.ledger.reserve(&draft.item)?;
        self.crew.reserve()?;
        Ok(draft)
    }

    /// Records a granted datagram and starts its open, where there is room on the disk.
    fn open<H: Host, K: Sink>(
        &mut self,
        moment: Moment,
        source: Ip4,
        stanza: u32,
        draft: Draft,
        host: &mut H,
        log: &mut LogWriter,
        out: &mut K,
    ) -> Result<(), TurnErr>
        requires rests { let at = scene_by H.Disk K.Sink in
            RestsSomehow (at self.old host.old log.old out.old) }
        requires ready { IsReadyFor draft self.old }
        requires next { MayMake self.old.book.changes (OpenChange draft.item) }
        requires stamp { (floor_of self.old.book.changes ≤ draft.item.stamp) × (draft.item.stamp ≤ greatest_stamp) }
        ensures { let at = scene_by H.Disk K.Sink in
            (policy : GivenPolicy) (place : Place) (datagram : List ℕ) (grant : GivenGrant) → AtRest policy.conf.now (at self.old host.old log.old out.old) place
            → IsGrantedBy policy place.ledger moment source datagram grant → IsDraftOf policy place.ledger moment datagram grant draft → stanza ≡ grant.stanza
            → Answers policy place (datagram_turn moment source datagram) (at self.old host.old log.old out.old) (at self.new host.new log.new out.new) result }
    {
        let Draft { item, opening } = draft;
        let (id, due) = (item.id, item.due);
        match self.ledger.record(host, item) {
            Err(RecordFault::Full) => {
                let why = LogWhy::Full;
                log.add(
                    &LogItem::Refused {
                        moment,
                        source,
                        why,
                    },
                    out,
                );
                Ok(())
            }
            Err(RecordFault::Disk) => Err(TurnErr::Disk),
            Ok(owed) => {
                log.add(
                    &LogItem::Granted {
                        moment,
                        source,
                        id,
                        stanza,
                        due,
                    },
                    out,
                );
                let begun = self.crew.start_open(host, owed, due, &opening)?;
                log.add(
                    &LogItem::Opened {
                        moment,
                        id,
                        words: &opening,
                        begun,
                    },
                    out,
                );
                Ok(())
            }
        }
    }

    /// Starts each close that is due.
    fn close<H: Host, K: Sink>(
        &mut self,
        moment: Moment,
        host: &mut H,
        log: &mut LogWriter,
        out: &mut K,
    ) -> Result<(), NoMemory>
        requires { let at = scene_by H.Disk K.Sink in
            RestsSomehow (at self.old host.old log.old out.old) }
        ensures { let at = scene_by H.Disk K.Sink in
            (conf : Conf) (place : Place) → AtRest conf (at self.old host.old log.old out.old) place
            → Closes conf moment place (at self.old host.old log.old out.old) (at self.new host.new log.new out.new) result }
    {
        while let Some(tried) = self.crew.start_close(host, &self.ledger, moment)? {
            self.tell_close(moment, tried, log, out);
        }
        Ok(())
    }

    /// Adds the line of an attempted close.
    fn tell_close<K: Sink>(&self, moment: Moment, tried: Tried, log: &mut LogWriter, out: &mut K)
        ensures { (closing : OpenRecord) → find (λ item. item.id == tried.id) (live self.now.book.changes) ≡ Some closing
            → Logs (ClosedLine moment tried.id closing.close tried.begun ∷ []) (output log.old (K.written out.old) (K.faults out.old))
            (output log.new (K.written out.new) (K.faults out.new)) }
    {
        if let Some(item) = self.ledger.get(tried.id) {
            log.add(
                &LogItem::Closed {
                    moment,
                    id: tried.id,
                    words: &item.close,
                    begun: tried.begun,
                },
                out,
            );
        }
    }
}
