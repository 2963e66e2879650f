//! The two files, each read and understood, or the first fault of them.
ghost use Rattle.std.specs.Prelude.{◌≡◌, MatchResult};
ghost use Rattle.fk_serve.specs.Files.{FailsFiles, HasAccess, HasConf, ReadsFiles, access_test, conf_test};
ghost use Rattle.fk_serve.specs.Private.{names_of};
ghost use Rattle.fk_program.specs.Faults.{fault_of};
ghost use Rattle.fk_program.specs.Files.{FailsFile, files_by};

use crate::fault_names::access_fault_name;
use fk_access::{Access, AccessErr, read_access};
use fk_base::Bytes;
use fk_conf::{Conf, ConfErr, conf_fault_name, read_conf};
use fk_host::Files;
use fk_program::{Refusal, read_text};
use std::alloc::Global;

/// The names of the two files.
#[derive(Clone, Copy)]
pub(crate) struct FileNames<'a> {
    pub(crate) conf: &'a [u8],
    pub(crate) access: &'a [u8],
}

pub(crate) fn file_names<'a>(conf: &'a Bytes, access: &'a Bytes) -> FileNames<'a>
    ensures conf { result.conf.now ≡ conf.now }
    ensures access { result.access.now ≡ access.now }
{
    FileNames {
        conf: conf.as_slice(),
        access: access.as_slice(),
    }
}

/// What the two files say.
#[derive(Drop)]
pub(crate) struct Settings {
    pub(crate) conf: Conf,
    pub(crate) access: Access,
}

/// Reads the configuration's file, and then the access file.
pub(crate) fn read_files<'a, F: Files>(
    alloc: Global,
    names: FileNames<'a>,
    files: &mut F,
) -> Result<Settings, Refusal<'a>>
    ensures { let at = files_by F.Files in MatchResult result
        (λ read. ReadsFiles (names_of names.entry) read.conf read.access (at files.old) (at files.new))
        (λ refusal. FailsFiles (names_of names.entry) (fault_of refusal) (at files.old) (at files.new)) }
{
    let conf = match conf_of(alloc, names.conf, files) {
        Ok(conf) => conf,
        Err(refusal) => return Err(refusal),
    };
    match access_of(alloc, names.access, files) {
        Ok(access) => Ok(Settings { conf, access }),
        Err(refusal) => Err(refusal),
    }
}

/// What the configuration's file of this name says.
fn conf_of<'a, F: Files>(alloc: Global, name: &'a [u8], files: &mut F) -> Result<Conf, Refusal<'a>>
    ensures { let at = files_by F.Files in MatchResult result
        (λ conf. HasConf name.now (at files.old) conf × (at files.new ≡ at files.old))
        (λ refusal. FailsFile (conf_test name.now) name.now (fault_of refusal) (at files.old) (at files.new)) }
{
    let text = match read_text(alloc, name, files) {
        Ok(text) => text,
        Err(refusal) => return Err(refusal),
    };
    match read_conf(text.as_slice()) {
        Ok(conf) => Ok(conf),
        Err(ConfErr::Fault { line, what }) => Err(Refusal::BadFile {
            name,
            line,
            what: conf_fault_name(what),
        }),
        Err(ConfErr::NoMemory) => Err(Refusal::NoMemory),
    }
}

/// What the access file of this name says.
fn access_of<'a, F: Files>(
    alloc: Global,
    name: &'a [u8],
    files: &mut F,
) -> Result<Access, Refusal<'a>>
    ensures { let at = files_by F.Files in MatchResult result
        (λ stanzas. HasAccess name.now (at files.old) stanzas × (at files.new ≡ at files.old))
        (λ refusal. FailsFile (access_test name.now) name.now (fault_of refusal) (at files.old) (at files.new)) }
{
    let text = match read_text(alloc, name, files) {
        Ok(text) => text,
        Err(refusal) => return Err(refusal),
    };
    match read_access(alloc, text.as_slice()) {
        Ok(access) => Ok(access),
        Err(AccessErr::Fault { line, what }) => Err(Refusal::BadFile {
            name,
            line,
            what: access_fault_name(what),
        }),
        Err(AccessErr::NoMemory) => Err(Refusal::NoMemory),
    }
}
