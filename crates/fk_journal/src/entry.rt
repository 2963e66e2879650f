ghost use Rattle.std.specs.Prelude.{◌≡◌, ℕ, ◌+◌, ◌<◌, ◌≤◌, ◌^◌, ◌∷◌, ◌++◌, [], List, length, drop, slice_index, IfOk, IsErrOf, IfSome, IsNone, vec_capacity};
ghost use Rattle.fk_journal.specs.Entries.{Content, IsContent, body, entry_bytes, place_behind, content_of_entry, contents_of, ArePlacedFrom, IsClosedBehind, BeginsWith, HoldsEntries, IsBrokenGate, IsDamagedAt};
ghost use Rattle.fk_journal.specs.declared.fault.JournalErr.TheVariants.{Disk};

use crate::JournalErr;
use fk_base::Bytes;
use std::alloc::Global;

/// An entry as it was read.
#[derive(Drop)]
pub struct Entry {
    /// The place of its gate, counted in bytes from the area's start.
    pub place: u64,
    /// 1 to 4.
    pub kind: u8,
    pub payload: Bytes,
}

/// The entries that the bytes of an area hold, and the place of the gate behind them.
pub(crate) fn entries_of(alloc: Global, bytes: &[u8]) -> Result<(Vec<Entry>, usize), JournalErr>
    ensures held { IfOk result (λ r. HoldsEntries bytes.now (contents_of r.0.items)) }
    ensures closed { IfOk result (λ r. 3 ≤ length bytes.now → IsClosedBehind (contents_of r.0.items) bytes.now) }
    ensures places { IfOk result (λ r. ArePlacedFrom 1 r.0.items) }
    ensures end { IfOk result (λ r. r.1 ≡ place_behind (contents_of r.0.items)) }
    ensures short { IfOk result (λ r. length bytes.now < 3 → (r.0.items ≡ []) × (r.1 ≡ 1)) }
    ensures within { IfOk result (λ r. r.1 ≤ length bytes.now + 1) }
    ensures damaged { (place : ℕ) → IsErrOf result (JournalErr.Damaged place) → IsDamagedAt bytes.now place }
    ensures other { IsErrOf result Disk → ⊥ }
{
    let mut entries = Vec::new(alloc);
    if bytes.len() < 3 {
        return Ok((entries, 1));
    }
    if bytes[0] != 2 {
        return Err(JournalErr::Damaged(0));
    }
    let mut at = 1;
    while bytes[at] == 1 {
        let Some((kind, payload)) = content_in(&bytes[at + 1..]) else {
            return Err(JournalErr::Damaged(at as u64));
        };
        entries.push(Entry {
            place: at as u64,
            kind,
            payload: Bytes::copy(alloc, payload)?,
        })?;
        at += 6 + payload.len();
    }
    Ok((entries, at))
}

/// The kind and the payload of the entry that the bytes begin with. A gate has to stand behind it.
fn content_in(bytes: &[u8]) -> Option<(u8, &[u8])>
    ensures found { IfSome result (λ c. (gate : ℕ) × (more : List ℕ) × IsContent (record { kind = c.0; payload = c.1.now })
        × (bytes.now ≡ body (record { kind = c.0; payload = c.1.now }) ++ gate ∷ more)) }
    ensures none { IsNone result → (content : Content) (gate : ℕ) (more : List ℕ) → IsContent content → bytes.now ≡ body content ++ gate ∷ more → ⊥ }
{
    let (size, rest) = bytes.split_first_chunk::<4>()?;
    let (kind, rest) = rest.split_first()?;
    let size = u32::from_be_bytes(*size) as usize;
    if *kind < 1 || *kind > 4 || rest.len() <= size {
        return None;
    }
    Some((*kind, &rest[..size]))
}

/// What is written behind the gate of an entry: how long its payload is, its kind, the payload, and a closed gate.
pub(crate) fn write_behind(buffer: &mut Vec<u8>, kind: u8, payload: &[u8])
    requires size { length payload.now < 2 ^ 32 }
    requires room { length payload.now + 6 ≤ vec_capacity buffer.old }
    ensures bytes { buffer.new.items ≡ body (record { kind = kind; payload = payload.now }) ++ 0 ∷ [] }
    ensures capacity { vec_capacity buffer.new ≡ vec_capacity buffer.old }
{
    buffer.clear();
    push_all(buffer, &(payload.len() as u32).to_be_bytes());
    buffer.push_reserved(kind);
    push_all(buffer, payload);
    buffer.push_reserved(0);
}

/// What is written of an entry that is copied: an open gate, how long its payload is, its kind, and the payload.
pub(crate) fn write_entry(buffer: &mut Vec<u8>, kind: u8, payload: &[u8])
    requires size { length payload.now < 2 ^ 32 }
    requires room { length payload.now + 6 ≤ vec_capacity buffer.old }
    ensures bytes { buffer.new.items ≡ entry_bytes (record { kind = kind; payload = payload.now }) }
    ensures capacity { vec_capacity buffer.new ≡ vec_capacity buffer.old }
{
    buffer.clear();
    push_entry(buffer, kind, payload);
}

/// Appends the entry behind an open gate, for which there is room.
pub(crate) fn push_entry(buffer: &mut Vec<u8>, kind: u8, payload: &[u8])
    requires size { length payload.now < 2 ^ 32 }
    requires room { length buffer.old.items + length payload.now + 6 ≤ vec_capacity buffer.old }
    ensures bytes { buffer.new.items ≡ buffer.old.items ++ entry_bytes (record { kind = kind; payload = payload.now }) }
    ensures capacity { vec_capacity buffer.new ≡ vec_capacity buffer.old }
{
    buffer.push_reserved(1);
    push_all(buffer, &(payload.len() as u32).to_be_bytes());
    buffer.push_reserved(kind);
    push_all(buffer, payload);
}

/// Appends the bytes, for which there is room.
fn push_all(buffer: &mut Vec<u8>, bytes: &[u8])
    requires room { length buffer.old.items + length bytes.now ≤ vec_capacity buffer.old }
    ensures items { buffer.new.items ≡ buffer.old.items ++ bytes.now }
    ensures capacity { vec_capacity buffer.new ≡ vec_capacity buffer.old }
{
    for byte in bytes {
        buffer.push_reserved(*byte);
    }
}
