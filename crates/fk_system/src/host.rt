//! The host of the system: the files of the current folder, and processes.
ghost use Rattle.std.specs.Prelude.{◌≡◌, None, []};

use crate::area_files::AreaFiles;
use crate::children::SysChildren;
use fk_base::{Failed, Purpose, Words};
use fk_host::{Area, ChildId, Disk, Host, StartErr};
use std::alloc::Global;
use std::fs::File;
use std::io::Stderr;
use std::process::Processes;
use std::rt::Files;
use std::time::Clock;

/// A host over the system. It tells nothing but which children run.
///
/// Its disk keeps the areas in the files `fwknopd.head`, `fwknopd.one` and `fwknopd.two` of the current folder. A missing file reads as
/// an empty area, and is made by the first call that writes or syncs it, for its owner alone. Each is opened once. Where its name no
/// longer means the file that is open, where the file is shorter than what was written to it, and where it is no plain file of the
/// user who runs, or one that others may write, the call fails. The first call that writes or syncs locks the journal's file, so that a
/// second daemon over the same folder meets a fault, and syncs the folder. It waits for the lock for two seconds at most.
///
/// A child is a process, started without a shell and looked for by PATH. It has an empty standard input, nowhere for its standard
/// output, and the daemon's standard error and environment. It ends well where its exit status is 0, and a poll that sees it to end
/// reaps it. A program that was not found is looked for again in the next turn.
#[derive(Drop)]
pub struct SysHost<R: Files<File = File> + Processes + Clock + Drop> {
    rt: R,
    areas: AreaFiles,
    faults: u64,
    alloc: Global,
    errors: Stderr,
    children: SysChildren<R::Started>,
}

impl<R: Files<File = File> + Processes + Clock + Drop> SysHost<R> {
    /// The children get `errors` as their standard error.
    pub fn new(alloc: Global, rt: R, errors: Stderr) -> Self
        ensures faults { ⟦<SysHost<R> as Disk>⟧.faults result ≡ 0 }
        ensures above { ⟦<SysHost<R> as Disk>⟧.above result ≡ record { running = []; faults = 0; last_child = 0 } }
    {
        SysHost {
            rt,
            areas: AreaFiles::new(),
            faults: 0,
            alloc,
            errors,
            children: SysChildren::new(alloc),
        }
    }
}

impl<R: Files<File = File> + Processes + Clock + Drop> Disk for SysHost<R> {
    ghost told = { λ _. None };

    ghost may_leave = { λ _ _ _. Unit {0} };

    ghost faults = { λ s. s.faults };

    ghost above = { λ s. s.children };

    ghost read_is_an_image = { λ _. tt };

    fn len(&mut self, area: Area) -> Result<u64, Failed> {
        match self.areas.length(&self.rt, area) {
            Ok(length) => Ok(length),
            Err(_) => {
                self.faults = self.faults.saturating_add(1);
                Err(Failed)
            }
        }
    }

    fn read(&mut self, area: Area, at: u64, buf: &mut [u8]) -> Result<usize, Failed> {
        match self.areas.bytes(&self.rt, area, at, buf) {
            Ok(count) => Ok(count),
            Err(_) => {
                self.faults = self.faults.saturating_add(1);
                Err(Failed)
            }
        }
    }

    fn write_at(&mut self, area: Area, at: u64, bytes: &[u8]) -> Result<(), Failed> {
        match self.areas.put(&self.rt, area, at, bytes) {
            Ok(()) => Ok(()),
            Err(_) => {
                self.faults = self.faults.saturating_add(1);
                Err(Failed)
            }
        }
    }

    fn cut(&mut self, area: Area, len: u64) -> Result<(), Failed> {
        match self.areas.shorten(&self.rt, area, len) {
            Ok(()) => Ok(()),
            Err(_) => {
                self.faults = self.faults.saturating_add(1);
                Err(Failed)
            }
        }
    }

    fn sync(&mut self, area: Area) -> Result<(), Failed> {
        match self.areas.settle(&self.rt, area) {
            Ok(()) => Ok(()),
            Err(_) => {
                self.faults = self.faults.saturating_add(1);
                Err(Failed)
            }
        }
    }
}

impl<R: Files<File = File> + Processes + Clock + Drop> Host for SysHost<R> {
    fn turn(&mut self, _: u64) {
        self.children.forget_missing();
    }

    fn start(&mut self, purpose: Purpose, words: &Words) -> Result<ChildId, StartErr> {
        self.children
            .start(self.alloc, &self.rt, self.errors, purpose, words)
    }

    fn poll(&mut self, child: ChildId) -> Result<Option<bool>, Failed> {
        self.children.poll(child)
    }
}
