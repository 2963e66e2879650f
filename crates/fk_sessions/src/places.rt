//! The ledger of area One, with each byte at a place and with each of its fronts.
use crate::answer::Answer;
use crate::areas::Areas;
use crate::fault::Fault;
use crate::fields::Fields;
use crate::ledger::{Found, found_on};
use crate::stage::Stage;
use fk_base::{Bytes, NoMemory};
use std::alloc::Global;

/// A room and a number of live records that the ledgers here do not reach.
const ROOM: u64 = 1_000_000;

const LIVE: u32 = 4096;

/// Opens the ledger with each byte at a place, or each front of the area, and tells what was found, by the bytes or by the lengths.
pub fn try_places(stage: &mut Stage, fields: &mut Fields<'_>) -> Result<Answer, Fault> {
    let alloc = stage.alloc;
    let area = stage.areas.one.as_slice();
    let all = match fields.word()? {
        "byte" => each_byte(alloc, area, fields.size()?)?,
        "cut" => each_cut(alloc, area)?,
        _ => return Err(Fault::NotUnderstood),
    };
    let mut answer = Answer::new(alloc);
    say_stretches(alloc, &all, &mut answer)?;
    Ok(answer)
}

fn each_byte(alloc: Global, area: &[u8], place: usize) -> Result<Vec<Found>, Fault> {
    let mut all = Vec::new(alloc);
    for byte in 0..=255 {
        let mut changed = Vec::from_slice(alloc, area)?;
        if place >= changed.len() {
            return Err(Fault::OutOfPlace);
        }
        changed[place] = byte;
        all.push(found_in(alloc, &changed)?)?;
    }
    Ok(all)
}

fn each_cut(alloc: Global, area: &[u8]) -> Result<Vec<Found>, Fault> {
    let mut all = Vec::new(alloc);
    for len in 0..area.len() {
        all.push(found_in(alloc, &area[..len])?)?;
    }
    Ok(all)
}

/// What an opening finds where area One has these bytes.
fn found_in(alloc: Global, area: &[u8]) -> Result<Found, NoMemory> {
    let mut areas = Areas::new(alloc);
    areas.one = Bytes::copy(alloc, area)?;
    let mut host = areas.host(alloc)?;
    found_on(alloc, &mut host, ROOM, LIVE)
}

/// Tells the findings, those that are the same in a row by one line.
fn say_stretches(alloc: Global, all: &[Found], answer: &mut Answer) -> Result<(), NoMemory> {
    let mut first = 0;
    for (at, found) in all.iter().enumerate() {
        let next = at.saturating_add(1);
        if all.get(next) != Some(found) {
            say_stretch(alloc, first, at, *found, answer)?;
            first = next;
        }
    }
    Ok(())
}

fn say_stretch(
    alloc: Global,
    first: usize,
    last: usize,
    found: Found,
    answer: &mut Answer,
) -> Result<(), NoMemory> {
    let text = found.text(alloc)?;
    if first == last {
        answer.say_text(format!(in alloc; "{last} {text}")?)
    } else {
        answer.say_text(format!(in alloc; "{first} to {last} {text}")?)
    }
}
