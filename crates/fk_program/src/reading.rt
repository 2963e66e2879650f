//! A file, read whole.
ghost use Rattle.std.specs.Prelude.{◌≡◌, List, ℕ, Option, MatchResult};
ghost use Rattle.fk_program.specs.Faults.{Fault, fault_of};
ghost use Rattle.fk_program.specs.Files.{FailsFile, HasText, files_by};

use crate::Refusal;
use fk_base::Bytes;
use fk_host::{FileErr, Files};
use std::alloc::Global;

/// The text of the file of this name. What it says is not tested here, so a refusal is one by whatever test the caller makes of it.
pub fn read_text<'a, F: Files>(
    alloc: Global,
    name: &'a [u8],
    files: &mut F,
) -> Result<Bytes, Refusal<'a>>
    ensures { let at = files_by F.Files in MatchResult result
        (λ text. HasText name.now (at files.old) text × (at files.new ≡ at files.old))
        (λ refusal. (test : List ℕ → Option Fault) → FailsFile test name.now (fault_of refusal) (at files.old) (at files.new)) }
{
    let mut text = Bytes::new(alloc);
    match files.read(name, &mut text) {
        Ok(()) => Ok(text),
        Err(FileErr::Missing) => Err(Refusal::Missing(name)),
        Err(FileErr::Failed) => Err(Refusal::Failed(name)),
        Err(FileErr::NoMemory) => Err(Refusal::NoMemory),
    }
}
