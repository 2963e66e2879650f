//! The line of a change, by its kind.
ghost use Rattle.std.specs.Prelude.{◌≡◌, IfOk};
ghost use Rattle.fk_trace.specs.declared.change.Change.TheVariants.{Done, Floor, Open, Settled};
ghost use Rattle.fk_tool.specs.JournalText.{change_text};

use crate::writing::{line_of_parts, words_text};
use fk_base::{Bytes, Digest, NoMemory, put_ip, put_pair};
use fk_trace::{Change, OpenRecord};
use itoa::Buffer;
use std::alloc::Global;

/// The line of a change.
pub(crate) fn change_line(alloc: Global, change: &Change) -> Result<Bytes, NoMemory>
    ensures { IfOk result (λ line. line ≡ change_text change.now) }
{
    match change {
        Change::Open(item) => open_line(alloc, item),
        Change::Done(id) => done_line(alloc, *id),
        Change::Settled { id, stamp, digest } => settled_line(alloc, *id, *stamp, digest),
        Change::Floor { floor, next } => floor_line(alloc, *floor, *next),
    }
}

fn open_line(alloc: Global, item: &OpenRecord) -> Result<Bytes, NoMemory>
    ensures { IfOk result (λ line. line ≡ change_text (Open item.now)) }
{
    let mut id = Buffer::new();
    let mut stamp = Buffer::new();
    let mut moment = Buffer::new();
    let mut due = Buffer::new();
    let digest = hex::encode(alloc, &item.digest.0)?;
    let mut address = Bytes::new(alloc);
    put_ip(item.ip, &mut address)?;
    let mut pair = Bytes::new(alloc);
    put_pair(item.pair, &mut pair)?;
    let words = words_text(alloc, &item.close)?;
    line_of_parts(
        alloc,
        &[
            b"open",
            id.format(item.id).as_bytes(),
            digest.as_bytes(),
            stamp.format(item.stamp).as_bytes(),
            moment.format(item.moment.get()).as_bytes(),
            due.format(item.due).as_bytes(),
            address.as_slice(),
            pair.as_slice(),
            words.as_slice(),
        ],
    )
}

fn done_line(alloc: Global, id: u64) -> Result<Bytes, NoMemory>
    ensures { IfOk result (λ line. line ≡ change_text (Done id)) }
{
    let mut text = Buffer::new();
    line_of_parts(alloc, &[b"done", text.format(id).as_bytes()])
}

fn settled_line(alloc: Global, id: u64, stamp: u64, digest: &Digest) -> Result<Bytes, NoMemory>
    ensures { IfOk result (λ line. line ≡ change_text (Settled id stamp digest.now)) }
{
    let mut number = Buffer::new();
    let mut seconds = Buffer::new();
    let letters = hex::encode(alloc, &digest.0)?;
    line_of_parts(
        alloc,
        &[
            b"settled",
            number.format(id).as_bytes(),
            letters.as_bytes(),
            seconds.format(stamp).as_bytes(),
        ],
    )
}

fn floor_line(alloc: Global, floor: u64, next: u64) -> Result<Bytes, NoMemory>
    ensures { IfOk result (λ line. line ≡ change_text (Floor floor next)) }
{
    let mut seconds = Buffer::new();
    let mut number = Buffer::new();
    line_of_parts(
        alloc,
        &[
            b"floor",
            seconds.format(floor).as_bytes(),
            number.format(next).as_bytes(),
        ],
    )
}
