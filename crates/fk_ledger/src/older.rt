//! What entries say that are of the format before this one: there a record has no stamp.
ghost use Rattle.std.specs.Prelude.{◌≡◌, ◌≤◌, length, IfOk, IsErrOf, take};
ghost use Rattle.fk_journal.specs.Entries.{Content};
ghost use Rattle.fk_trace.specs.declared.change.Change.{Change};
ghost use Rattle.fk_ledger.specs.Older.{stamp_by, stamped, with_stamp};
ghost use Rattle.fk_ledger.specs.Payloads.{content_of, IsChange};
ghost use Rattle.fk_ledger.specs.Private.{said_in};

use crate::reading::{PayloadErr, change_in};
use fk_base::NoMemory;
use fk_trace::Change;
use std::alloc::Global;

/// The greatest age of a packet that can be set, in seconds.
const YEAR: u64 = 31_536_000;

/// In which format entries are.
#[derive(Clone, Copy)]
pub(crate) enum Format {
    Current,
    Older,
}

/// The change that an entry of this format says.
pub(crate) fn change_of(
    alloc: Global,
    format: Format,
    kind: u8,
    payload: &[u8],
) -> Result<Change, PayloadErr>
    ensures found { IfOk result (λ change. IsChange change × (said_in format (record { kind = kind; payload = payload.now }) ≡ content_of change)) }
    ensures malformed { IsErrOf result PayloadErr.Malformed → (change : Change) → IsChange change
        → said_in format (record { kind = kind; payload = payload.now }) ≡ content_of change → ⊥ }
{
    match format {
        Format::Current => change_in(alloc, kind, payload),
        Format::Older => older_change_in(alloc, kind, payload),
    }
}

/// The change that an entry of the older format says.
fn older_change_in(alloc: Global, kind: u8, payload: &[u8]) -> Result<Change, PayloadErr>
    ensures found { IfOk result (λ change. IsChange change × (stamped (record { kind = kind; payload = payload.now }) ≡ content_of change)) }
    ensures malformed { IsErrOf result PayloadErr.Malformed → (change : Change) → IsChange change
        → stamped (record { kind = kind; payload = payload.now }) ≡ content_of change → ⊥ }
{
    match kind {
        1 => change_in(alloc, 1, &with_stamp(alloc, payload, 40, 0)?),
        2 => change_in(alloc, 2, payload),
        3 => change_in(alloc, 3, &with_stamp(alloc, payload, 8, 8)?),
        _ => Err(PayloadErr::Malformed),
    }
}

/// The payload with its record's stamp at the place of the moment, and so many bytes from there on left out.
fn with_stamp(alloc: Global, payload: &[u8], at: usize, out: usize) -> Result<Vec<u8>, NoMemory>
    requires { (at ≤ 40) × (out ≤ 8) }
    ensures { IfOk result (λ bytes. bytes.items ≡ with_stamp at out payload.now) }
{
    if payload.len() < at + 8 {
        return Ok(Vec::from_slice(alloc, payload)?);
    }
    let (front, rest) = payload.split_at(at);
    let (_, left) = rest.split_at(out);
    let mut bytes = Vec::from_slice(alloc, front)?;
    bytes.extend_from_slice(&stamp_by(rest).to_be_bytes())?;
    bytes.extend_from_slice(left)?;
    Ok(bytes)
}

/// The stamp of a record, with whose moment the bytes begin.
fn stamp_by(bytes: &[u8]) -> u64
    requires { 8 ≤ length bytes.now }
    ensures { result ≡ stamp_by (take 8 bytes.now) }
{
    match bytes.first_chunk::<8>() {
        Some(moment) => u64::from_be_bytes(*moment).saturating_add(YEAR),
        None => u64::MAX,
    }
}
