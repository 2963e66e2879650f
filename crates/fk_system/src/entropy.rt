ghost use Rattle.std.specs.Prelude.{◌≡◌, None};

use fk_base::Failed;
use fk_host::Entropy;
use std::fs::{File, Files};
use std::io;
use std::io::Read;

/// The device that gives random bytes.
const DEVICE: &str = "/dev/urandom";

/// The random bytes of the system. How random they are is trusted, and it tells nothing.
#[derive(Drop)]
pub struct SysEntropy<R: Files + Drop> {
    rt: R,
    faults: u64,
}

impl<R: Files + Drop> SysEntropy<R> {
    pub fn new(rt: R) -> Self
        ensures { ⟦<SysEntropy<R> as Entropy>⟧.faults result ≡ 0 }
    {
        SysEntropy { rt, faults: 0 }
    }
}

impl<R: Files + Drop> Entropy for SysEntropy<R> {
    ghost faults = { λ e. e.faults };

    ghost left = { λ _. None };

    fn fill(&mut self, out: &mut [u8]) -> Result<(), Failed> {
        match draw(&self.rt, out) {
            Ok(()) => Ok(()),
            Err(_) => {
                self.faults = self.faults.saturating_add(1);
                Err(Failed)
            }
        }
    }
}

fn draw<R: Files>(rt: &R, out: &mut [u8]) -> io::Result<()> {
    File::open(rt, DEVICE)?.read_exact(out)
}
