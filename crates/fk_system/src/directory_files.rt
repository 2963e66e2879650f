ghost use Rattle.std.specs.Prelude.{◌≡◌, ◌≤◌, None, IfOk, vec_len};

use fk_base::{Bytes, FILE_LIMIT};
use fk_host::{FileErr, Files};
use std::alloc::Global;
use std::fs::File;
use std::io::Read;
use std::{fs, io};

/// The files of the system, by their paths. What it reads is trusted, and it tells nothing. A name that is not UTF-8 is a fault.
#[derive(Drop)]
pub struct DirFiles<R: fs::Files + Drop> {
    alloc: Global,
    rt: R,
    faults: u64,
}

impl<R: fs::Files + Drop> DirFiles<R> {
    pub fn new(alloc: Global, rt: R) -> Self
        ensures { ⟦<DirFiles<R> as Files>⟧.faults result ≡ 0 }
    {
        DirFiles {
            alloc,
            rt,
            faults: 0,
        }
    }
}

impl<R: fs::Files + Drop> Files for DirFiles<R> {
    ghost faults = { λ f. f.faults };

    ghost held = { λ _. None };

    fn read(&mut self, name: &[u8], out: &mut Bytes) -> Result<(), FileErr> {
        match content(self.alloc, &self.rt, name) {
            Ok(bytes) => {
                out.append(&bytes)?;
                Ok(())
            }
            Err(FileErr::NoMemory) => Err(FileErr::NoMemory),
            Err(fault) => {
                self.faults = self.faults.saturating_add(1);
                Err(fault)
            }
        }
    }
}

// The bytes of a file, where it is no longer than a file may be.
fn content<R: fs::Files>(alloc: Global, rt: &R, name: &[u8]) -> Result<Vec<u8>, FileErr>
    ensures { IfOk result (λ bytes. vec_len bytes ≤ FILE_LIMIT) }
{
    let Ok(path) = str::from_utf8(name) else {
        return Err(FileErr::Failed);
    };
    let file = match File::open(rt, path) {
        Ok(file) => file,
        Err(fault) => return Err(why(fault.kind())),
    };
    let mut bytes = Vec::new(alloc);
    // One byte above the limit shows that a file is too long.
    if let Err(fault) = file.take(FILE_LIMIT as u64 + 1).read_to_end(&mut bytes) {
        return Err(why(fault.kind()));
    }
    if bytes.len() > FILE_LIMIT {
        return Err(FileErr::Failed);
    }
    Ok(bytes)
}

fn why(kind: io::ErrorKind) -> FileErr {
    match kind {
        io::ErrorKind::NotFound => FileErr::Missing,
        io::ErrorKind::OutOfMemory => FileErr::NoMemory,
        _ => FileErr::Failed,
    }
}
