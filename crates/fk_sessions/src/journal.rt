//! Calls of the journal by itself, over the session's areas.
ghost use Rattle.std.specs.Prelude.{IfOk};
ghost use Rattle.fk_sessions.specs.Kinds.{IsKind};

use crate::answer::Answer;
use crate::areas::read_from;
use crate::fault::Fault;
use crate::fields::Fields;
use crate::memory::{Disk, MemHost};
use crate::names::hex_text;
use crate::stage::Stage;
use fk_base::NoMemory;
use fk_journal::{Entry, Journal, JournalErr};
use std::alloc::Global;

/// Opens the journal with this limit, and lists its entries and its room.
pub fn list_entries(stage: &mut Stage, fields: &mut Fields<'_>) -> Result<Answer, Fault> {
    let limit = fields.number()?;
    let mut host = stage.take_host()?;
    let mut answer = Answer::new(stage.alloc);
    say_opened(stage.alloc, &mut host, limit, &mut answer)?;
    leave(stage, &host)?;
    Ok(answer)
}

fn leave(stage: &mut Stage, host: &MemHost) -> Result<(), NoMemory> {
    stage.areas = read_from(host)?;
    Ok(())
}

fn say_opened(
    alloc: Global,
    host: &mut MemHost,
    limit: u64,
    answer: &mut Answer,
) -> Result<(), NoMemory> {
    match Journal::open(alloc, host, limit) {
        Ok((journal, entries)) => {
            say_entries(alloc, &entries, answer)?;
            say_room(alloc, journal.room(), answer)
        }
        Err(err) => say_err(alloc, err, answer),
    }
}

fn say_entries(alloc: Global, entries: &[Entry], answer: &mut Answer) -> Result<(), NoMemory> {
    for entry in entries {
        say_entry(alloc, entry, answer)?;
    }
    Ok(())
}

fn say_entry(alloc: Global, entry: &Entry, answer: &mut Answer) -> Result<(), NoMemory> {
    let place = entry.place;
    let kind = entry.kind;
    let payload = hex_text(alloc, entry.payload.as_slice())?;
    answer.say_text(format!(in alloc; "{place} kind {kind} {payload}")?)
}

fn say_room(alloc: Global, room: u64, answer: &mut Answer) -> Result<(), NoMemory> {
    answer.say_text(format!(in alloc; "room {room}")?)
}

fn say_err(alloc: Global, err: JournalErr, answer: &mut Answer) -> Result<(), NoMemory> {
    match err {
        JournalErr::Disk => answer.say(b"disk failed"),
        JournalErr::Damaged(place) => answer.say_text(format!(in alloc; "damaged {place}")?),
        JournalErr::NoMemory => Err(NoMemory),
    }
}

/// Opens the journal with this limit, and appends an entry of this kind and payload.
pub fn append_entry(stage: &mut Stage, fields: &mut Fields<'_>) -> Result<Answer, Fault> {
    let limit = fields.number()?;
    let kind = kind_of(fields.word()?)?;
    let payload = stage.names.hex(fields.all_or_none().unwrap_or(""))?;
    let mut host = stage.take_host()?;
    let room = appended(stage.alloc, &mut host, limit, kind, payload.as_slice());
    leave(stage, &host)?;
    answer_of(stage.alloc, room)
}

fn answer_of(alloc: Global, room: Result<u64, JournalErr>) -> Result<Answer, Fault> {
    let mut answer = Answer::new(alloc);
    match room {
        Ok(room) => say_room(alloc, room, &mut answer)?,
        Err(err) => say_err(alloc, err, &mut answer)?,
    }
    Ok(answer)
}

fn kind_of(word: &str) -> Result<u8, Fault>
    ensures { IfOk result IsKind }
{
    match word {
        "1" => Ok(1),
        "2" => Ok(2),
        "3" => Ok(3),
        "4" => Ok(4),
        _ => Err(Fault::NotUnderstood),
    }
}

/// The room behind the entry.
fn appended<D: Disk>(
    alloc: Global,
    disk: &mut D,
    limit: u64,
    kind: u8,
    payload: &[u8],
) -> Result<u64, JournalErr>
    requires { IsKind kind }
{
    let (journal, _entries) = Journal::open(alloc, disk, limit)?;
    let mut journal = journal;
    journal.reserve(payload.len())?;
    if payload.len() > u32::MAX as usize {
        return Err(JournalErr::NoMemory);
    }
    journal.append(disk, kind, payload)?;
    Ok(journal.room())
}
