ghost use Rattle.std.specs.Prelude.{◌≡◌, ◌↔◌, ℕ, List, Option, None, Err, IfSome, OnOk, OnErr};
ghost use Rattle.fk_host.specs.Count.{HasCauseBy};
ghost use Rattle.fk_host.specs.declared.files.HeldFile.{HeldFile};
ghost use Rattle.fk_host.specs.Files.{bytes_of_file, is_fault, ReadsFile};

use fk_base::{Bytes, NoMemory};

/// Why a file is not read, in the order in which it is tested.
#[derive(Clone, Copy, Debug, PartialEq, Eq)]
pub enum FileErr {
    /// There is no file of this name.
    Missing,
    /// It could not be read, or is above the limit.
    Failed,
    NoMemory,
}

impl From<NoMemory> for FileErr {
    ghost use Rattle.std.specs.Prelude.{◌≡◌};
    ghost use Rattle.fk_host.specs.declared.files.FileErr.TheVariants.{NoMemory as OutOfMemory};

    ghost from_gives = { λ _ e. e ≡ OutOfMemory };

    fn from(_: NoMemory) -> Self {
        FileErr::NoMemory
    }
}

/// A file that is held, with its name.
#[derive(Drop)]
pub struct HeldFile {
    pub name: Bytes,
    pub bytes: Bytes,
}

/// Where files are read from, by their names.
pub trait Files {
    /// How often the files have refused a read. It never falls.
    ghost faults: { Self → ℕ };

    /// The files that are held, where it tells.
    ghost held: { Self → Option (List HeldFile) };

    /// Adds the bytes of the file of this name to those in `out`.
    fn read(&mut self, name: &[u8], out: &mut Bytes) -> Result<(), FileErr>
        ensures added { OnOk result (ReadsFile name.now (held self.old) out.old out.new) }
        ensures missing { IfSome (held self.old) (λ files. (result ≡ Err FileErr.Missing) ↔ (bytes_of_file name.now files ≡ None)) }
        ensures kept { OnErr result (out.new ≡ out.old) }
        ensures held { held self.new ≡ held self.old }
        ensures cause { HasCauseBy is_fault (faults self.old) (faults self.new) result };
}
