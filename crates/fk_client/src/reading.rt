//! The client's file, read and settled, or why there are no settings.
ghost use Rattle.std.specs.Prelude.{◌≡◌, MatchResult};
ghost use Rattle.fk_client.specs.Faults.{fault_of};
ghost use Rattle.fk_client.specs.Running.{FindsNoSealing, FindsNoSettings, HasSealing, HasSettings, HasStanzas, rc_test};
ghost use Rattle.fk_program.specs.Faults.{fault_of as file_fault_of};
ghost use Rattle.fk_program.specs.Files.{FailsFile, files_by};

use crate::refusal::{Refusal, need_name};
use crate::{NeedFault, Sealing, Settings, find_sealing, settings};
use fk_conf::{ConfErr, RcFile, conf_fault_name, read_rc};
use fk_host::Files;
use fk_program::read_text;
use fk_words::SendWords;
use std::alloc::Global;

/// The settings that the words and the file that they name give.
pub(crate) fn settings_by<'a, F: Files>(
    alloc: Global,
    words: &'a SendWords,
    files: &mut F,
) -> Result<Settings, Refusal<'a>>
    ensures { let at = files_by F.Files in MatchResult result
        (λ settings. HasSettings words.now (at files.old) settings × (at files.new ≡ at files.old))
        (λ refusal. FindsNoSettings words.now (fault_of refusal) (at files.old) (at files.new)) }
{
    let name = words.file.as_slice();
    let file = match stanzas_of(alloc, name, files) {
        Ok(file) => file,
        Err(refusal) => return Err(Refusal::Common(refusal)),
    };
    match settings(alloc, &file, words) {
        Ok(found) => Ok(found),
        Err(NeedFault::NoMemory) => Err(Refusal::Common(fk_program::Refusal::NoMemory)),
        Err(fault) => Err(Refusal::Need {
            name,
            what: need_name(fault),
        }),
    }
}

/// What the stanza of this name, in the file of that name, seals by.
pub fn sealing_by<'a, F: Files>(
    alloc: Global,
    file_name: &'a [u8],
    name: &[u8],
    files: &mut F,
) -> Result<Sealing, Refusal<'a>>
    ensures { let at = files_by F.Files in MatchResult result
        (λ sealing. HasSealing file_name.now name.now (at files.old) sealing × (at files.new ≡ at files.old))
        (λ refusal. FindsNoSealing file_name.now name.now (fault_of refusal) (at files.old) (at files.new)) }
{
    let file = match stanzas_of(alloc, file_name, files) {
        Ok(file) => file,
        Err(refusal) => return Err(Refusal::Common(refusal)),
    };
    match find_sealing(alloc, &file, name) {
        Ok(found) => Ok(found),
        Err(NeedFault::NoMemory) => Err(Refusal::Common(fk_program::Refusal::NoMemory)),
        Err(fault) => Err(Refusal::Need {
            name: file_name,
            what: need_name(fault),
        }),
    }
}

/// The stanzas of the file of this name.
fn stanzas_of<'a, F: Files>(
    alloc: Global,
    name: &'a [u8],
    files: &mut F,
) -> Result<RcFile, fk_program::Refusal<'a>>
    ensures { let at = files_by F.Files in MatchResult result
        (λ stanzas. HasStanzas name.now (at files.old) stanzas × (at files.new ≡ at files.old))
        (λ refusal. FailsFile (rc_test name.now) name.now (file_fault_of refusal) (at files.old) (at files.new)) }
{
    let text = match read_text(alloc, name, files) {
        Ok(text) => text,
        Err(refusal) => return Err(refusal),
    };
    match read_rc(alloc, text.as_slice()) {
        Ok(file) => Ok(file),
        Err(ConfErr::Fault { line, what }) => Err(fk_program::Refusal::BadFile {
            name,
            line,
            what: conf_fault_name(what),
        }),
        Err(ConfErr::NoMemory) => Err(fk_program::Refusal::NoMemory),
    }
}
