//! Lines for a trial, printed one by one.
ghost use Rattle.std.specs.Prelude.{◌≤◌};
ghost use Rattle.fk_log.specs.Printing.{sink_by};
ghost use Rattle.fk_tool.specs.Generated.{IsGeneratedText};
ghost use Rattle.fk_tool.specs.Lines.{ShowsLines};

use crate::generated::{generated_keys, generated_line};
use crate::writing::write_line;
use fk_base::{Failed, NoMemory, Status};
use fk_host::Sink;
use std::alloc::Global;

/// Prints so many lines for a trial.
pub(crate) fn generate<K: Sink>(alloc: Global, count: u64, out: &mut K) -> Status
    requires least { 1 ≤ count }
    requires most { count ≤ 100000 }
    ensures { let at = sink_by K.Sink in ShowsLines IsGeneratedText count (at out.old) (at out.new) result }
{
    let Ok(keys) = generated_keys(alloc) else {
        return Status::NoMemory;
    };
    for number in 0..count {
        let line = match generated_line(alloc, &keys, number) {
            Ok(line) => line,
            Err(NoMemory) => return Status::NoMemory,
        };
        if let Err(Failed) = write_line(line.as_slice(), out) {
            return Status::SinkFault;
        }
    }
    Status::Done
}
