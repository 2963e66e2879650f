//! Calls of the ledger by itself, over the session's areas.
ghost use Rattle.std.specs.Prelude.{◌≡◌, false};
ghost use Rattle.fk_journal.specs.Keeps.{StandsOn};
ghost use Rattle.fk_ledger.specs.Book.{live_ids};
ghost use Rattle.fk_ledger.specs.Holds.{KeepsLedger};

use crate::answer::Answer;
use crate::daemon::leave;
use crate::fault::Fault;
use crate::fields::Fields;
use crate::memory::{Disk, MemHost};
use crate::names::hex_text;
use crate::stage::Stage;
use fk_base::{Bytes, Digest, NoMemory, Words, put_ip, put_pair, read_pair};
use fk_ledger::{Ledger, LedgerErr, Owed, RecordFault, are_command_words};
use fk_trace::{Change, OpenRecord};
use std::alloc::Global;

/// The greatest stamp that a record may have.
const GREATEST_STAMP: u64 = 1_000_031_535_999;

/// For how many seconds digests are kept, where nothing is said of it.
const KEEP: u32 = 86_400;

/// What the opening of a ledger has found.
#[derive(Clone, Copy, PartialEq, Eq)]
pub enum Found {
    /// How many records were made, and how many of them are live.
    Records(u64, usize),
    Damaged(u64),
    Failed,
}

impl Found {
    pub fn text(self, alloc: Global) -> Result<String, NoMemory> {
        Ok(match self {
            Found::Records(records, live) => format!(in alloc; "records {records} live {live}")?,
            Found::Damaged(place) => format!(in alloc; "damaged {place}")?,
            Found::Failed => String::from_str(alloc, "disk failed")?,
        })
    }
}

/// Opens the ledger of a disk, and leaves it.
pub fn found_on(
    alloc: Global,
    host: &mut MemHost,
    room: u64,
    live: u32,
) -> Result<Found, NoMemory> {
    match Ledger::open(alloc, host, room, live, KEEP) {
        Ok((ledger, owed)) => {
            let found = Found::Records(ledger.next_id().saturating_sub(1), ledger.live());
            ledger.park(owed);
            Ok(found)
        }
        Err(LedgerErr::Damaged(place)) => Ok(Found::Damaged(place)),
        Err(LedgerErr::Disk) => Ok(Found::Failed),
        Err(LedgerErr::NoMemory) => Err(NoMemory),
    }
}

/// Opens the ledger with this room and so many live records, and tells what it found.
pub fn open_ledger(stage: &mut Stage, fields: &mut Fields<'_>) -> Result<Answer, Fault> {
    let room = fields.number()?;
    let live = fields.count()?;
    let mut host = stage.take_host()?;
    let found = found_on(stage.alloc, &mut host, room, live)?;
    leave(stage, host)?;
    Ok(Answer::of_text(stage.alloc, found.text(stage.alloc)?)?)
}

/// Lists the changes of the ledger, which is only read.
pub fn list_changes(stage: &mut Stage) -> Result<Answer, Fault> {
    let mut host = stage.take_host()?;
    let mut answer = Answer::new(stage.alloc);
    say_view(stage.alloc, &mut host, &mut answer)?;
    leave(stage, host)?;
    Ok(answer)
}

fn say_view(alloc: Global, host: &mut MemHost, answer: &mut Answer) -> Result<(), NoMemory> {
    match Ledger::view(alloc, host) {
        Ok(changes) => say_changes(alloc, &changes, answer),
        Err(LedgerErr::Damaged(place)) => answer.say_text(Found::Damaged(place).text(alloc)?),
        Err(LedgerErr::Disk) => answer.say_text(Found::Failed.text(alloc)?),
        Err(LedgerErr::NoMemory) => Err(NoMemory),
    }
}

fn say_changes(alloc: Global, changes: &[Change], answer: &mut Answer) -> Result<(), NoMemory> {
    for change in changes {
        say_change(alloc, change, answer)?;
    }
    Ok(())
}

fn say_change(alloc: Global, change: &Change, answer: &mut Answer) -> Result<(), NoMemory> {
    match change {
        Change::Open(item) => say_open(alloc, item, answer),
        Change::Done(id) => answer.say_text(format!(in alloc; "done {id}")?),
        Change::Settled { id, stamp, digest } => {
            let letters = hex_text(alloc, &digest.0)?;
            answer.say_text(format!(in alloc; "settled {id} {letters} {stamp}")?)
        }
        Change::Floor { floor, next } => {
            answer.say_text(format!(in alloc; "floor {floor} {next}")?)
        }
    }
}

fn say_open(alloc: Global, item: &OpenRecord, answer: &mut Answer) -> Result<(), NoMemory> {
    let mut text = Bytes::new(alloc);
    put_numbers(alloc, item, &mut text)?;
    put_ip(item.ip, &mut text)?;
    text.append(b" ")?;
    put_pair(item.pair, &mut text)?;
    put_words(&item.close, &mut text)?;
    answer.say(text.as_slice())
}

fn put_numbers(alloc: Global, item: &OpenRecord, text: &mut Bytes) -> Result<(), NoMemory> {
    let id = item.id;
    let digest = hex_text(alloc, &item.digest.0)?;
    let stamp = item.stamp;
    let moment = item.moment.get();
    let due = item.due;
    let start = format!(in alloc; "open {id} {digest} {stamp} {moment} {due} ")?;
    text.append(start.as_bytes())
}

fn put_words(words: &Words, text: &mut Bytes) -> Result<(), NoMemory> {
    for at in 0..words.count() {
        text.append(b" ")?;
        text.append(words.get(at))?;
    }
    Ok(())
}

/// Records an open in the ledger with this room and so many live records.
pub fn record_item(stage: &mut Stage, fields: &mut Fields<'_>) -> Result<Answer, Fault> {
    let room = fields.number()?;
    let live = fields.count()?;
    let item = item_of(stage, fields)?;
    let mut host = stage.take_host()?;
    let word = recorded(stage.alloc, &mut host, room, live, item)?;
    leave(stage, host)?;
    let mut answer = Answer::new(stage.alloc);
    answer.say(word.as_bytes())?;
    Ok(answer)
}

/// A record as a line has it: its number, digest, stamp, moment, due, address and pair, and the words of its close.
fn item_of(stage: &Stage, fields: &mut Fields<'_>) -> Result<OpenRecord, Fault> {
    let id = fields.number()?;
    let digest = digest_of(&stage.names.hex(fields.word()?)?)?;
    let stamp = fields.number()?;
    let moment = fields.moment()?;
    let due = fields.number()?;
    let ip = fields.address()?;
    let pair = read_pair(fields.word()?.as_bytes()).map_err(|_| Fault::NotUnderstood)?;
    let close = stage.names.words(fields.all_or_none())?;
    Ok(OpenRecord {
        id,
        digest,
        stamp,
        moment,
        due,
        ip,
        pair,
        close,
    })
}

fn digest_of(bytes: &Bytes) -> Result<Digest, Fault> {
    match bytes.as_slice().split_first_chunk::<32>() {
        Some((digest, [])) => Ok(Digest(*digest)),
        _ => Err(Fault::NotUnderstood),
    }
}

/// Opens the ledger, records the item and leaves it.
fn recorded(
    alloc: Global,
    host: &mut MemHost,
    room: u64,
    live: u32,
    item: OpenRecord,
) -> Result<&'static str, Fault> {
    match Ledger::open(alloc, host, room, live, KEEP) {
        Ok((ledger, owed)) => {
            let mut ledger = ledger;
            let mut owed = owed;
            let answer = record_on(&mut ledger, &mut owed, host, item);
            ledger.park(owed);
            answer
        }
        Err(LedgerErr::NoMemory) => Err(Fault::NoMemory),
        Err(_) => Err(Fault::OutOfPlace),
    }
}

/// Records the item, for which one more is owed then.
fn record_on<D: Disk>(
    ledger: &mut Ledger,
    owed: &mut Vec<Owed>,
    disk: &mut D,
    item: OpenRecord,
) -> Result<&'static str, Fault>
    requires unspent { ledger.old.is_spent ≡ false }
    requires keeps { KeepsLedger ledger.old.changes (D.told disk.old) (D.may_leave disk.old) }
    requires stands { StandsOn ledger.old.area (D.told disk.old) }
    requires owed { owed.old.items ≡ live_ids ledger.old.changes }
    ensures { owed.new.items ≡ live_ids ledger.new.changes }
{
    if !are_command_words(&item.close)
        || item.id != ledger.next_id()
        || ledger.seen(&item.digest)
        || item.stamp < ledger.floor()
        || item.stamp > GREATEST_STAMP
    {
        return Err(Fault::OutOfPlace);
    }
    owed.reserve(1)?;
    ledger.reserve(&item)?;
    match ledger.record(disk, item) {
        Ok(new) => {
            owed.push_reserved(new);
            Ok("recorded")
        }
        Err(RecordFault::Full) => Ok("full"),
        Err(RecordFault::Disk) => Ok("disk failed"),
    }
}
