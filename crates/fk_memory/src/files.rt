ghost use Rattle.std.specs.Prelude.{◌≡◌, [], ◌∷◌, ◌++◌, false, None, Err, find, length, IfNone, IfSome, IfErr, OnOk, OnErr};
ghost use Rattle.std.specs.List.{list_any};
ghost use Rattle.std.specs.Option.{option_copied, option_map};
ghost use Rattle.std.specs.Str.{bytes_eq};
ghost use Rattle.fk_host.specs.Count.{HasCauseBy};
ghost use Rattle.fk_host.specs.Files.{bytes_of_file, is_fault, ReadsFile};
ghost use Rattle.fk_memory.specs.Files.{is_among, read_fault};

use fk_base::{Bytes, FILE_LIMIT, NoMemory};
use fk_host::{FileErr, Files, HeldFile};
use std::alloc::Global;
use std::marker::Model;

/// Files in memory. Reads of some names may be told to fail.
#[derive(Drop)]
pub struct MemFiles {
    alloc: Global,
    held: Vec<HeldFile>,
    failing: Vec<Bytes>,
    faults: u64,
}

impl Model for MemFiles {
    ghost use Rattle.fk_memory.specs.Files.{FilesState};

    ghost Value = { FilesState };

    ghost view = { λ f. record { held = f.held.items; failing = f.failing.items; faults = f.faults } };
}

impl MemFiles {
    /// Holds no file.
    pub fn new(alloc: Global) -> Self
        ensures { result ≡ record { held = []; failing = []; faults = 0 } }
    {
        MemFiles {
            alloc,
            held: Vec::new(alloc),
            failing: Vec::new(alloc),
            faults: 0,
        }
    }

    /// Holds one more file, of a name that none has.
    pub fn add(&mut self, name: &[u8], bytes: &[u8]) -> Result<(), NoMemory>
        requires { bytes_of_file name.now self.old.held ≡ None }
        ensures ok { OnOk result (self.new ≡ record self.old { held = self.old.held ++ record { name = name.now; bytes = bytes.now } ∷ [] }) }
        ensures err { OnErr result (self.new ≡ self.old) }
    {
        self.held.push(HeldFile {
            name: Bytes::copy(self.alloc, name)?,
            bytes: Bytes::copy(self.alloc, bytes)?,
        })?;
        Ok(())
    }

    /// Lets each read of this name fail where it is held.
    pub fn fail(&mut self, name: &[u8]) -> Result<(), NoMemory>
        ensures ok { OnOk result (self.new ≡ record self.old { failing = self.old.failing ++ name.now ∷ [] }) }
        ensures err { OnErr result (self.new ≡ self.old) }
    {
        self.failing.push(Bytes::copy(self.alloc, name)?)?;
        Ok(())
    }

    /// The file of this name, if it is held.
    pub fn find(&self, name: &[u8]) -> Option<&HeldFile>
        ensures { option_copied result ≡ find (λ file. bytes_eq file.name name.now) self.now.held }
    {
        self.held.iter().find(|file| file.name.as_slice() == name)
    }

    fn fails(&self, name: &[u8]) -> bool
        ensures { result ≡ is_among name.now self.now.failing }
    {
        self.failing.iter().any(|other| other.as_slice() == name)
    }
}

impl Files for MemFiles {
    ghost use Rattle.std.specs.Prelude.{Some};

    ghost faults = { λ f. f.faults };

    ghost held = { λ f. Some f.held };

    fn read(&mut self, name: &[u8], out: &mut Bytes) -> Result<(), FileErr>
        // It is refused exactly by the first fault of the name; else memory alone can be wanting.
        ensures refused { IfSome (read_fault self.old name.now) (λ fault. result ≡ Err fault) }
        ensures read { IfNone (read_fault self.old name.now) (IfErr result (λ e. e ≡ FileErr.NoMemory)) }
        ensures added { OnOk result (ReadsFile name.now (Some self.old.held) out.old out.new) }
        ensures kept { OnErr result (out.new ≡ out.old) }
        ensures state { self.new ≡ record self.old { faults = self.new.faults } }
        ensures cause { HasCauseBy is_fault self.old.faults self.new.faults result }
    {
        let fails = self.fails(name);
        let fault = match self.find(name) {
            None => FileErr::Missing,
            Some(file) if fails || file.bytes.as_slice().len() > FILE_LIMIT => FileErr::Failed,
            Some(file) => {
                out.append(file.bytes.as_slice())?;
                return Ok(());
            }
        };
        self.faults = self.faults.saturating_add(1);
        Err(fault)
    }
}
