//! A host in memory: its disk keeps each call, so that what a crash at any moment may leave can be told, and its children fare as
//! they were scripted.
ghost use Rattle.std.specs.Prelude.{◌≡◌, ℕ, ◌+◌, ◌^◌, ◌<◌, ◌≤◌, Some, IsTrue, ◌||◌, ◌==◌, min, true, false, [], ◌∷◌, ◌++◌, if◌then◌else◌, length, take, drop, find, slice_get, is_err, IfOk, OnErr, OnOk, IfSome};
ghost use Rattle.std.specs.List.{list_any};
ghost use Rattle.std.specs.Option.{ForSome, option_copied};
ghost use Rattle.fk_host.specs.Count.{counted, HasCause};
ghost use Rattle.fk_host.specs.Disk.{area_of, Written, Torn, Cut, Same, InArea, Synced, Calls, LeavesHost};
ghost use Rattle.fk_memory.specs.Area.{AreaState, area_after, areas_after, after_call, overwritten, put_bytes, cut_length, MayHold, reads_after};
ghost use Rattle.fk_memory.specs.Host.{told_of, leaves_of, above_of, fails_next, fails_to_write, done_next, after_disk_call, after_call_above};
ghost use Rattle.fk_memory.specs.Starts.{starts_of};
ghost use Rattle.fk_memory.specs.HostRecord.{texts, event_of};
ghost use Rattle.fk_trace.specs.Trace.Event.{Turn};
ghost use Rattle.fk_host.specs.Host.{brought_by_start, brought_by_poll, CallsAbove, above_after, above_by, is_running};
ghost use Rattle.fk_memory.specs.Children.{start_answer, poll_answer};
ghost use Rattle.fk_memory.specs.declared.host.Call.TheVariants.{Other, Write as Writes, Cut as Cuts, Sync as Syncs};
ghost use Rattle.fk_memory.specs.Sound.{told_is_left};

use crate::StartScript;
use crate::children::MemChildren;
use crate::trace::{HostEvent, KeptItem};
use fk_base::{Bytes, Failed, NoMemory, Purpose, Words};
use fk_host::{Area, ChildId, Disk, Host, StartErr};
use std::alloc::Global;
use std::marker::Model;

/// A write that ends past this place is a fault.
const GREATEST_END: u64 = 1 << 40;

/// What one call of a host did to the disk.
#[derive(Drop)]
pub enum Call {
    /// It left the areas as they were.
    Other,
    /// Where it failed, it has put so many of the bytes, from the front on, or all where there are fewer.
    Write {
        area: Area,
        at: u64,
        bytes: Bytes,
        failed: bool,
        done: u64,
    },
    /// Where it failed, it has taken so many bytes away, or all where there were fewer to take.
    Cut {
        area: Area,
        len: u64,
        failed: bool,
        done: u64,
    },
    Sync {
        area: Area,
        failed: bool,
    },
}

/// A call of the disk that is to fail.
#[derive(Clone, Copy)]
pub struct FailingCall {
    /// Its number, counted from 1.
    pub call: u64,
    /// How many bytes a write puts before it fails, or a cut takes away. It does nothing at 0, and all at a number that is no less
    /// than there are.
    pub done: u64,
}

/// The bytes of the three areas.
#[derive(Drop)]
struct Texts {
    head: Vec<u8>,
    one: Vec<u8>,
    two: Vec<u8>,
}

impl Texts {
    fn copy(alloc: Global, head: &[u8], one: &[u8], two: &[u8]) -> Result<Self, NoMemory>
        ensures { IfOk result (λ t. texts t ≡ record { head = head.now; one = one.now; two = two.now }) }
    {
        Ok(Texts {
            head: Vec::from_slice(alloc, head)?,
            one: Vec::from_slice(alloc, one)?,
            two: Vec::from_slice(alloc, two)?,
        })
    }

    fn text(&self, area: Area) -> &[u8]
        ensures { result.now ≡ area_of area (texts self.now) }
    {
        match area {
            Area::Head => self.head.as_slice(),
            Area::One => self.one.as_slice(),
            Area::Two => self.two.as_slice(),
        }
    }

    fn apply(&mut self, call: &Call) -> Result<(), NoMemory>
        ensures { OnOk result ((self.new.head.items ≡ reads_after Area.Head call.now self.old.head.items)
            × (self.new.one.items ≡ reads_after Area.One call.now self.old.one.items)
            × (self.new.two.items ≡ reads_after Area.Two call.now self.old.two.items)) }
    {
        apply_to(Area::Head, call, &mut self.head)?;
        apply_to(Area::One, call, &mut self.one)?;
        apply_to(Area::Two, call, &mut self.two)
    }
}

/// Does to the bytes of an area what the call did to it.
fn apply_to(area: Area, call: &Call, bytes: &mut Vec<u8>) -> Result<(), NoMemory>
    ensures { OnOk result (bytes.new.items ≡ reads_after area call.now bytes.old.items) }
{
    match call {
        Call::Write {
            area: of,
            at,
            bytes: piece,
            failed,
            done,
        } if *of == area => overwrite(bytes, *at, put_bytes(piece.as_slice(), *failed, *done)),
        Call::Cut {
            area: of,
            len,
            failed,
            done,
        } if *of == area => {
            let left = cut_length(*len, *failed, *done, bytes.len() as u64);
            bytes.truncate(left as usize);
            Ok(())
        }
        _ => Ok(()),
    }
}

/// What a write puts of its bytes.
fn put_bytes(bytes: &[u8], failed: bool, done: u64) -> &[u8]
    ensures { result.now ≡ put_bytes bytes.now failed done }
{
    if failed {
        &bytes[..bytes.len().min(done as usize)]
    } else {
        bytes
    }
}

/// To which length a cut goes from this one.
fn cut_length(len: u64, failed: bool, done: u64, before: u64) -> u64
    ensures { result ≡ cut_length len failed done before }
{
    if failed {
        len.max(before.saturating_sub(done))
    } else {
        len
    }
}

/// Writes the piece over the bytes at a place, or at their end where they are shorter.
fn overwrite(bytes: &mut Vec<u8>, place: u64, piece: &[u8]) -> Result<(), NoMemory>
    ensures { OnOk result (bytes.new.items ≡ overwritten (min place (length bytes.old.items)) piece.now bytes.old.items) }
{
    let at = bytes.len().min(place as usize);
    let inside = piece.len().min(bytes.len() - at);
    bytes.extend_from_slice(&piece[inside..])?;
    bytes[at..at + inside].copy_from_slice(&piece[..inside]);
    Ok(())
}

/// A host in memory. It tells its trace, what its disk gives, and what a crash at each of its moments may leave. Its children are
/// numbered 1, 2, 3 and so on.
#[derive(Drop)]
pub struct MemHost {
    alloc: Global,
    first: Texts,
    // what a read gives
    present: Texts,
    calls: Vec<Call>,
    disk_calls: u64,
    failing: Vec<FailingCall>,
    faults: u64,
    trace: Vec<KeptItem>,
    children: MemChildren,
    is_short: bool,
}

impl Model for MemHost {
    ghost use Rattle.std.specs.Prelude.{◌≡◌, ◌≤◌, false, length};
    ghost use Rattle.fk_memory.specs.Area.{areas_after};
    ghost use Rattle.fk_memory.specs.Host.{HostState};
    ghost use Rattle.fk_memory.specs.HostRecord.{texts, children_of, CountsWithin};

    ghost Value = { HostState };

    ghost view = { λ h. record { first = texts h.first; calls = h.calls.items; disk_calls = h.disk_calls; failing = h.failing.items; faults = h.faults; trace = h.trace.items; children = children_of h.children; is_short = h.is_short } };

    ghost invariant = { λ h. (h.is_short ≡ false → texts h.present ≡ areas_after (texts h.first) h.calls.items) × (h.disk_calls ≤ length h.calls.items) × CountsWithin h.children (length h.calls.items) };
}

impl MemHost {
    /// A host whose areas have these bytes, all of them on the disk, and of whose calls none is to fail.
    pub fn new(alloc: Global, head: &[u8], one: &[u8], two: &[u8]) -> Result<Self, NoMemory>
        ensures { IfOk result (λ h. h ≡ record {
          first = record { head = head.now; one = one.now; two = two.now };
          calls = [];
          disk_calls = 0;
          failing = [];
          faults = 0;
          trace = [];
          children = record { scripts = []; turns = 0; running = []; begun = 0; polls = 0; failing = []; faults = 0 };
          is_short = false;
        }) }
    {
        Ok(MemHost {
            alloc,
            first: Texts::copy(alloc, head, one, two)?,
            present: Texts::copy(alloc, head, one, two)?,
            calls: Vec::new(alloc),
            disk_calls: 0,
            failing: Vec::new(alloc),
            faults: 0,
            trace: Vec::new(alloc),
            children: MemChildren::new(alloc),
            is_short: false,
        })
    }

    /// Makes the call of the disk of this number fail, counted from 1, and do nothing before.
    pub fn fail_disk(&mut self, call: u64) -> Result<(), NoMemory>
        ensures ok { OnOk result (self.new ≡ record self.old { failing = self.old.failing ++ record { call = call; done = 0 } ∷ [] }) }
        ensures err { OnErr result (self.new ≡ self.old) }
    {
        self.failing.push(FailingCall { call, done: 0 })?;
        Ok(())
    }

    /// Makes a call of the disk fail, and do as much before as is said, if it is a write or a cut. Where a call is made to fail more
    /// than once, the first time counts.
    pub fn fail_disk_in_part(&mut self, failing: FailingCall) -> Result<(), NoMemory>
        ensures ok { OnOk result (self.new ≡ record self.old { failing = self.old.failing ++ failing ∷ [] }) }
        ensures err { OnErr result (self.new ≡ self.old) }
    {
        self.failing.push(failing)?;
        Ok(())
    }

    /// Adds how a start fares, behind what was added before. Past all of these each child begins, and ends well after one turn.
    pub fn script(&mut self, item: StartScript) -> Result<(), NoMemory>
        ensures ok { OnOk result (self.new ≡ record self.old { children = record self.old.children { scripts = self.old.children.scripts ++ item ∷ [] } }) }
        ensures err { OnErr result (self.new ≡ self.old) }
    {
        self.children.scripts.push(item)?;
        Ok(())
    }

    /// Makes the poll of this number fail, counted from 1.
    pub fn fail_poll(&mut self, call: u64) -> Result<(), NoMemory>
        ensures ok { OnOk result (self.new ≡ record self.old { children = record self.old.children { failing = self.old.children.failing ++ call ∷ [] } }) }
        ensures err { OnErr result (self.new ≡ self.old) }
    {
        self.children.failing.push(call)?;
        Ok(())
    }

    /// How many calls of the host were kept. After each of them a crash may come.
    pub fn moments(&self) -> u64
        ensures { result ≡ length self.now.calls }
    {
        self.calls.len() as u64
    }

    /// How many attempts to start a child the trace tells.
    pub fn starts(&self) -> usize
        ensures { result ≡ length (starts_of self.now.trace) }
    {
        self.trace.iter().filter_map(|item| item.start()).count()
    }

    /// Of an attempt to start a child, counted from 0: how many calls of the host were kept up to it, its own among them, what it
    /// was for, and whether the child began.
    pub fn start_at(&self, at: usize) -> (u64, Purpose, bool)
        requires { at < length (starts_of self.now.trace) }
        ensures { slice_get (starts_of self.now.trace) at ≡ Some result }
    {
        match self.find_start(at) {
            Some(start) => start,
            None => unreachable!(),
        }
    }

    fn find_start(&self, at: usize) -> Option<(u64, Purpose, bool)>
        ensures { result ≡ slice_get (starts_of self.now.trace) at }
    {
        self.trace.iter().filter_map(|item| item.start()).nth(at)
    }

    /// Whether the host couldn't grow for its own record. It then tells nothing more, each further call of the disk and each poll
    /// fails, and each start answers want of memory.
    pub fn is_short(&self) -> bool
        ensures { result ≡ self.now.is_short }
    {
        self.is_short
    }

    /// What a crash after so many calls may leave of an area: with every write since the last sync, and of one that failed with what it
    /// had done, or with none of them.
    pub fn image(&self, moment: u64, area: Area, keep: bool) -> Result<Bytes, NoMemory>
        requires past { moment ≤ length self.now.calls }
        requires told { self.now.is_short ≡ false }
        ensures bytes { let state = area_after self.now.first (take moment self.now.calls) area in
            IfOk result (λ bytes. bytes ≡ (if keep then state.reads else state.synced)) }
        ensures left { IfOk result (λ bytes. MayHold (area_after self.now.first (take moment self.now.calls) area) bytes) }
    {
        self.replayed(moment, area, keep)
    }

    fn replayed(&self, moment: u64, area: Area, keep: bool) -> Result<Bytes, NoMemory>
        requires { moment ≤ length self.now.calls }
        ensures { let state = area_after self.now.first (take moment self.now.calls) area in
            IfOk result (λ bytes. bytes ≡ (if keep then state.reads else state.synced)) }
    {
        let first = self.first.text(area);
        let mut reads = Vec::from_slice(self.alloc, first)?;
        let mut synced = Vec::from_slice(self.alloc, first)?;
        for call in &self.calls[..moment as usize] {
            replay(area, call, &mut reads, &mut synced)?;
        }
        Ok(Bytes::from(if keep { reads } else { synced }))
    }

    fn fails_next(&self) -> bool
        ensures { result ≡ fails_next self.now }
    {
        self.is_short || self.is_told_to_fail()
    }

    fn is_told_to_fail(&self) -> bool
        ensures { result ≡ list_any (λ failing. failing.call == self.now.disk_calls + 1) self.now.failing }
    {
        let next = self.disk_calls + 1;
        self.failing.iter().any(|failing| failing.call == next)
    }

    fn done_next(&self) -> u64
        ensures { result ≡ done_next self.now }
    {
        match self.find_next() {
            Some(failing) => failing.done,
            None => 0,
        }
    }

    fn find_next(&self) -> Option<&FailingCall>
        ensures { option_copied result ≡ find (λ failing. failing.call == self.now.disk_calls + 1) self.now.failing }
    {
        let next = self.disk_calls + 1;
        self.failing.iter().find(|failing| failing.call == next)
    }

    fn measure(&mut self, area: Area) -> Result<u64, Failed>
        ensures len { IfOk result (λ n. n ≡ length (area_of area (areas_after self.old.first self.old.calls))) }
        ensures result { is_err result ≡ (fails_next self.old || self.new.is_short) }
        ensures state { self.new ≡ after_disk_call Other (fails_next self.old) self.new.is_short self.old }
    {
        let failed = self.fails_next();
        self.make(Call::Other, failed)?;
        Ok(self.present.text(area).len() as u64)
    }

    fn copy_out(&mut self, area: Area, at: u64, buf: &mut [u8]) -> Result<usize, Failed>
        ensures within { IfOk result (λ n. n ≤ length buf.new) }
        ensures bytes { IfOk result (λ n. take n buf.new ≡ take (length buf.old) (drop at (area_of area (areas_after self.old.first self.old.calls)))) }
        ensures result { is_err result ≡ (fails_next self.old || self.new.is_short) }
        ensures state { self.new ≡ after_disk_call Other (fails_next self.old) self.new.is_short self.old }
    {
        let failed = self.fails_next();
        self.make(Call::Other, failed)?;
        Ok(copy_front(self.present.text(area), at, buf))
    }

    fn write(&mut self, area: Area, at: u64, bytes: &[u8]) -> Result<(), Failed>
        ensures result { is_err result ≡ (fails_to_write self.old (at + length bytes.now) || self.new.is_short) }
        ensures state { let failed = fails_to_write self.old (at + length bytes.now) in
            self.new ≡ after_disk_call (Writes area at bytes.now failed (done_next self.old)) failed self.new.is_short self.old }
    {
        let failed = self.fails_next() || at.saturating_add(bytes.len() as u64) > GREATEST_END;
        let done = self.done_next();
        match Bytes::copy(self.alloc, bytes) {
            Ok(bytes) => self.make(
                Call::Write {
                    area,
                    at,
                    bytes,
                    failed,
                    done,
                },
                failed,
            ),
            Err(NoMemory) => self.give_up(),
        }
    }

    fn shorten(&mut self, area: Area, len: u64) -> Result<(), Failed>
        ensures result { is_err result ≡ (fails_next self.old || self.new.is_short) }
        ensures state { self.new ≡ after_disk_call (Cuts area len (fails_next self.old) (done_next self.old)) (fails_next self.old) self.new.is_short self.old }
    {
        let failed = self.fails_next();
        let done = self.done_next();
        self.make(
            Call::Cut {
                area,
                len,
                failed,
                done,
            },
            failed,
        )
    }

    fn settle(&mut self, area: Area) -> Result<(), Failed>
        ensures result { is_err result ≡ (fails_next self.old || self.new.is_short) }
        ensures state { self.new ≡ after_disk_call (Syncs area (fails_next self.old)) (fails_next self.old) self.new.is_short self.old }
    {
        let failed = self.fails_next();
        self.make(Call::Sync { area, failed }, failed)
    }

    /// The host can't grow.
    fn give_up(&mut self) -> Result<(), Failed>
        ensures result { is_err result ≡ true }
        ensures state { self.new ≡ record self.old { faults = counted self.old.faults; is_short = true } }
    {
        self.is_short = true;
        self.faults = self.faults.saturating_add(1);
        Err(Failed)
    }

    /// Makes a call of the disk, which fails where it is told to.
    fn make(&mut self, call: Call, failed: bool) -> Result<(), Failed>
        ensures result { is_err result ≡ (failed || self.new.is_short) }
        ensures state { self.new ≡ after_disk_call call failed self.new.is_short self.old }
    {
        if self.is_short || self.calls.reserve(1).is_err() || self.present.apply(&call).is_err() {
            self.is_short = true;
            self.faults = self.faults.saturating_add(1);
            return Err(Failed);
        }
        self.calls.push_reserved(call);
        self.disk_calls += 1;
        if failed {
            self.faults = self.faults.saturating_add(1);
            return Err(Failed);
        }
        Ok(())
    }
}

impl MemHost {
    /// Keeps a call above the disk, with what it brought.
    fn keep(&mut self, event: HostEvent) -> Result<(), NoMemory>
        ensures result { is_err result ≡ self.new.is_short }
        ensures state { self.new ≡ (if self.new.is_short then record self.old { is_short = true } else after_call_above (Some (event_of event)) false self.old) }
    {
        if self.is_short
            || self.calls.reserve(1).is_err()
            || self.trace.reserve(1).is_err()
            || self.children.running.reserve(1).is_err()
        {
            self.is_short = true;
            return Err(NoMemory);
        }
        self.children.note(&event);
        self.trace.push_reserved(KeptItem {
            event,
            moments: self.calls.len() as u64 + 1,
            faults: self.faults,
        });
        self.calls.push_reserved(Call::Other);
        Ok(())
    }

    fn begin(&mut self, purpose: Purpose, words: &Words) -> Result<ChildId, StartErr>
        ensures answer { result ≡ start_answer self.new.is_short self.old.children }
        ensures state { self.new ≡ after_call_above (brought_by_start purpose words.now result) self.new.is_short self.old }
    {
        let answer = self.children.next_start();
        match HostEvent::of_start(self.alloc, purpose, words, answer) {
            Ok(event) => self.keep(event)?,
            Err(NoMemory) => {
                self.is_short = true;
                return Err(StartErr::NoMemory);
            }
        }
        answer
    }

    fn ask(&mut self, child: ChildId) -> Result<Option<bool>, Failed>
        ensures answer { result ≡ poll_answer self.new.is_short child.0 self.old.children }
        ensures state { self.new ≡ after_call_above (brought_by_poll child.0 result) self.new.is_short self.old }
    {
        let answer = self.children.next_poll(child);
        if self.keep(HostEvent::of_poll(child, answer)).is_err() {
            self.children.faults = self.children.faults.saturating_add(1);
            return Err(Failed);
        }
        answer
    }
}

impl Disk for MemHost {
    ghost told = { told_of };

    ghost may_leave = { leaves_of };

    ghost faults = { λ h. h.faults };

    ghost above = { above_of };

    ghost read_is_an_image = { told_is_left };

    fn len(&mut self, area: Area) -> Result<u64, Failed>
        ensures len { IfOk result (λ n. IfSome (told_of self.new) (λ now. n ≡ length (area_of area now.areas))) }
        ensures call { Calls told_of leaves_of self.old self.new Same Same }
        ensures host { LeavesHost told_of above_of self.old self.new }
        ensures cause { HasCause self.old.faults self.new.faults result }
        // It fails where it is told to, and where the host becomes short.
        ensures result { is_err result ≡ (fails_next self.old || self.new.is_short) }
        ensures state { self.new ≡ after_disk_call Other (fails_next self.old) self.new.is_short self.old }
    {
        self.measure(area)
    }

    fn read(&mut self, area: Area, at: u64, buf: &mut [u8]) -> Result<usize, Failed>
        ensures within { IfOk result (λ n. n ≤ length buf.new) }
        ensures bytes { IfOk result (λ n. IfSome (told_of self.new) (λ now. take n buf.new ≡ take (length buf.old) (drop at (area_of area now.areas)))) }
        ensures call { Calls told_of leaves_of self.old self.new Same Same }
        ensures host { LeavesHost told_of above_of self.old self.new }
        ensures cause { HasCause self.old.faults self.new.faults result }
        // It fails where it is told to, and where the host becomes short.
        ensures result { is_err result ≡ (fails_next self.old || self.new.is_short) }
        ensures state { self.new ≡ after_disk_call Other (fails_next self.old) self.new.is_short self.old }
    {
        self.copy_out(area, at, buf)
    }

    fn write_at(&mut self, area: Area, at: u64, bytes: &[u8]) -> Result<(), Failed>
        requires { ForSome (told_of self.old) (λ now. at ≤ length (area_of area now.areas)) }
        ensures within { OnOk result (at + length bytes.now ≤ 2 ^ 40) }
        ensures ok { OnOk result (Calls told_of leaves_of self.old self.new (InArea area (Written at bytes.now)) (InArea area (Torn at (length bytes.now)))) }
        ensures err { OnErr result (Calls told_of leaves_of self.old self.new (InArea area (Torn at (length bytes.now))) (InArea area (Torn at (length bytes.now)))) }
        ensures host { LeavesHost told_of above_of self.old self.new }
        ensures cause { HasCause self.old.faults self.new.faults result }
        // It fails where it is told to, where it would end past 2^40, and where the host becomes short. Then it has done what it is
        // told to, or nothing.
        ensures result { is_err result ≡ (fails_to_write self.old (at + length bytes.now) || self.new.is_short) }
        ensures state { let failed = fails_to_write self.old (at + length bytes.now) in
            self.new ≡ after_disk_call (Writes area at bytes.now failed (done_next self.old)) failed self.new.is_short self.old }
    {
        self.write(area, at, bytes)
    }

    fn cut(&mut self, area: Area, len: u64) -> Result<(), Failed>
        requires { ForSome (told_of self.old) (λ now. len ≤ length (area_of area now.areas)) }
        ensures ok { OnOk result (Calls told_of leaves_of self.old self.new (InArea area (λ old new. new ≡ take len old)) (InArea area (Cut len))) }
        ensures err { OnErr result (Calls told_of leaves_of self.old self.new (InArea area (Cut len)) (InArea area (Cut len))) }
        ensures host { LeavesHost told_of above_of self.old self.new }
        ensures cause { HasCause self.old.faults self.new.faults result }
        // It fails where it is told to, and where the host becomes short.
        ensures result { is_err result ≡ (fails_next self.old || self.new.is_short) }
        ensures state { self.new ≡ after_disk_call (Cuts area len (fails_next self.old) (done_next self.old)) (fails_next self.old) self.new.is_short self.old }
    {
        self.shorten(area, len)
    }

    fn sync(&mut self, area: Area) -> Result<(), Failed>
        ensures ok { OnOk result (IfSome (told_of self.new) (λ now. Calls told_of leaves_of self.old self.new Same (Synced area now.areas))) }
        ensures err { OnErr result (Calls told_of leaves_of self.old self.new Same Same) }
        ensures host { LeavesHost told_of above_of self.old self.new }
        ensures cause { HasCause self.old.faults self.new.faults result }
        // It fails where it is told to, and where the host becomes short.
        ensures result { is_err result ≡ (fails_next self.old || self.new.is_short) }
        ensures state { self.new ≡ after_disk_call (Syncs area (fails_next self.old)) (fails_next self.old) self.new.is_short self.old }
    {
        self.settle(area)
    }
}

impl Host for MemHost {
    fn turn(&mut self, number: u64)
        ensures call { CallsAbove told_of leaves_of (λ h. h.faults) (Some (Turn number)) self.old self.new }
        ensures above { above_of self.new ≡ above_after (Turn number) (above_of self.old) }
        ensures disk { self.new.faults ≡ self.old.faults }
        ensures state { self.new ≡ after_call_above (Some (Turn number)) self.new.is_short self.old }
    {
        let _ = self.keep(HostEvent::Turn(number));
    }

    fn start(&mut self, purpose: Purpose, words: &Words) -> Result<ChildId, StartErr>
        requires { 0 < length words.now }
        ensures number { IfOk result (λ child. (above_of self.old).last_child < child.0) }
        ensures call { CallsAbove told_of leaves_of (λ h. h.faults) (brought_by_start purpose words.now result) self.old self.new }
        ensures above { above_of self.new ≡ above_by (brought_by_start purpose words.now result) (above_of self.old) }
        ensures disk { self.new.faults ≡ self.old.faults }
        // It answers as the script says, and want of memory exactly where the host becomes or is short.
        ensures answer { result ≡ start_answer self.new.is_short self.old.children }
        ensures state { self.new ≡ after_call_above (brought_by_start purpose words.now result) self.new.is_short self.old }
    {
        self.begin(purpose, words)
    }

    fn poll(&mut self, child: ChildId) -> Result<Option<bool>, Failed>
        requires { IsTrue (is_running child.0 (above_of self.old)) }
        ensures call { CallsAbove told_of leaves_of (λ h. h.faults) (brought_by_poll child.0 result) self.old self.new }
        ensures above { above_of self.new ≡ above_by (brought_by_poll child.0 result) (above_of self.old) }
        ensures disk { self.new.faults ≡ self.old.faults }
        // It fails where it is told to, and where the host becomes or is short; else it answers as the script says.
        ensures answer { result ≡ poll_answer self.new.is_short child.0 self.old.children }
        ensures state { self.new ≡ after_call_above (brought_by_poll child.0 result) self.new.is_short self.old }
    {
        self.ask(child)
    }
}

/// Copies the bytes of a text from a place on to the front of the buffer, as many as there are and fit.
fn copy_front(text: &[u8], at: u64, buf: &mut [u8]) -> usize
    ensures within { result ≤ length buf.new }
    ensures bytes { take result buf.new ≡ take (length buf.old) (drop at text.now) }
{
    let rest = &text[text.len().min(at as usize)..];
    let count = rest.len().min(buf.len());
    buf[..count].copy_from_slice(&rest[..count]);
    count
}

/// Does to what a read gives of the area, and to what of it is synced, what the call did.
fn replay(
    area: Area,
    call: &Call,
    reads: &mut Vec<u8>,
    synced: &mut Vec<u8>,
) -> Result<(), NoMemory>
    ensures { (state : AreaState) → state.reads ≡ reads.old.items → state.synced ≡ synced.old.items
        → OnOk result (((after_call area call.now state).reads ≡ reads.new.items) × ((after_call area call.now state).synced ≡ synced.new.items)) }
{
    apply_to(area, call, reads)?;
    if let Call::Sync {
        area: of,
        failed: false,
    } = call
        && *of == area
    {
        synced.clear();
        synced.extend_from_slice(reads)?;
    }
    Ok(())
}
