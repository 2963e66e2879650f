//! The children of the system's host, which are processes.
ghost use Rattle.std.specs.Prelude.{◌≡◌, ◌+◌, ◌<◌, ◌==◌, [], ◌∷◌, ◌++◌, not, IsTrue, IfOk, OnOk, OnErr, drop, length, slice_get, Some};
ghost use Rattle.std.specs.List.{filter};
ghost use Rattle.std.specs.Process.{command_program, command_args};
ghost use Rattle.fk_trace.specs.Trace.Event.{Began};
ghost use Rattle.fk_host.specs.Host.{brought_by_start, brought_by_poll, above_by, is_running};

use fk_base::{Bytes, Failed, Purpose, Words};
use fk_host::{ChildId, StartErr};
use std::alloc::Global;
use std::io::{ErrorKind, Stderr};
use std::marker::Model;
use std::process::{Command, OpenProcess, Processes, Stdio};
use std::{io, process};

/// A process that was started and that no poll has seen to end.
#[derive(Drop)]
struct Started<P: OpenProcess + Drop> {
    number: u64,
    purpose: Purpose,
    process: process::Child<P>,
}

impl<P: OpenProcess + Drop> Model for Started<P> {
    ghost use Rattle.fk_trace.specs.Trace.{Child};

    ghost Value = { Child };

    ghost view = { λ s. record { number = s.number; purpose = s.purpose } };
}

impl<P: OpenProcess + Drop> Started<P> {
    fn number(&self) -> u64
        ensures { result ≡ self.now.number }
    {
        self.number
    }

    /// Whether it has ended, and if so whether its exit status was 0. What has ended is reaped. Where somebody else has reaped it, as
    /// the system does where SIGCHLD is ignored, nobody knows its status, and it counts as one that ended badly.
    fn end(&mut self) -> io::Result<Option<bool>>
        ensures { self.new ≡ self.old }
    {
        match self.process.try_wait() {
            Ok(Some(status)) => Ok(Some(status.success())),
            Ok(None) => Ok(None),
            Err(error) if error.raw_os_error() == Some(libc::ECHILD) => Ok(Some(false)),
            Err(error) => Err(error),
        }
    }
}

/// The processes that run, and the counts of the host above its disk.
#[derive(Drop)]
pub(crate) struct SysChildren<P: OpenProcess + Drop> {
    running: Vec<Started<P>>,
    last: u64,
    faults: u64,
    // a program that could not be started in this turn, since it is not there or no program
    missing: Option<Bytes>,
}

impl<P: OpenProcess + Drop> Model for SysChildren<P> {
    ghost use Rattle.fk_host.specs.Disk.{Above};

    ghost Value = { Above };

    ghost view = { λ c. record { running = c.running.items; faults = c.faults; last_child = c.last } };
}

impl<P: OpenProcess + Drop> SysChildren<P> {
    pub fn new(alloc: Global) -> Self
        ensures { result ≡ record { running = []; faults = 0; last_child = 0 } }
    {
        SysChildren {
            running: Vec::new(alloc),
            last: 0,
            faults: 0,
            missing: None,
        }
    }

    /// Looks for each program again.
    pub fn forget_missing(&mut self)
        ensures { self.new ≡ self.old }
    {
        self.missing = None;
    }

    pub fn start<R: Processes<Started = P>>(
        &mut self,
        alloc: Global,
        rt: &R,
        errors: Stderr,
        purpose: Purpose,
        words: &Words,
    ) -> Result<ChildId, StartErr>
        requires { 0 < length words.now }
        ensures number { IfOk result (λ child. self.old.last_child < child.0) }
        ensures above { self.new ≡ above_by (brought_by_start purpose words.now result) self.old }
    {
        match self.begin(alloc, rt, errors, purpose, words) {
            Ok(child) => Ok(child),
            Err(StartErr::Failed) => {
                self.faults = self.faults.saturating_add(1);
                Err(StartErr::Failed)
            }
            Err(StartErr::NoMemory) => Err(StartErr::NoMemory),
        }
    }

    fn begin<R: Processes<Started = P>>(
        &mut self,
        alloc: Global,
        rt: &R,
        errors: Stderr,
        purpose: Purpose,
        words: &Words,
    ) -> Result<ChildId, StartErr>
        requires { 0 < length words.now }
        ensures number { IfOk result (λ child. self.old.last_child < child.0) }
        ensures ok { IfOk result (λ child. self.new ≡ above_by (Some (Began child.0 purpose words.now)) self.old) }
        ensures err { OnErr result (self.new ≡ self.old) }
    {
        let Some(number) = self.last.checked_add(1) else {
            return Err(StartErr::Failed);
        };
        if self.is_missing(words) {
            return Err(StartErr::Failed);
        }
        // The room comes first, so that no process is started that could not be kept.
        self.running.reserve(1)?;
        let process = match spawn(rt, errors, command_of(alloc, words)?) {
            Ok(process) => process,
            Err(error) => return Err(self.not_started(alloc, words.get(0), error.kind())),
        };
        self.running.push_reserved(Started {
            number,
            purpose,
            process,
        });
        self.last = number;
        Ok(ChildId(number))
    }

    /// Why the program was not started. One that is not there is remembered for this turn.
    fn not_started(&mut self, alloc: Global, program: &[u8], kind: ErrorKind) -> StartErr
        ensures { self.new ≡ self.old }
    {
        match kind {
            ErrorKind::OutOfMemory => StartErr::NoMemory,
            ErrorKind::NotFound | ErrorKind::PermissionDenied => {
                self.missing = Bytes::copy(alloc, program).ok();
                StartErr::Failed
            }
            _ => StartErr::Failed,
        }
    }

    /// The program of these words could not be started in this turn.
    fn is_missing(&self, words: &Words) -> bool
        requires { 0 < length words.now }
    {
        match &self.missing {
            Some(program) => program.as_slice() == words.get(0),
            None => false,
        }
    }

    pub fn poll(&mut self, child: ChildId) -> Result<Option<bool>, Failed>
        ensures { self.new ≡ above_by (brought_by_poll child.0 result) self.old }
    {
        match self.end_of(child.0) {
            Ok(Some(good)) => {
                self.forget(child.0);
                Ok(Some(good))
            }
            Ok(None) => Ok(None),
            Err(_) => {
                self.faults = self.faults.saturating_add(1);
                Err(Failed)
            }
        }
    }

    fn end_of(&mut self, number: u64) -> io::Result<Option<bool>>
        ensures { self.new ≡ self.old }
    {
        match self
            .running
            .iter()
            .position(|started| started.number() == number)
        {
            Some(at) => self.running[at].end(),
            None => Ok(None),
        }
    }

    fn forget(&mut self, number: u64)
        ensures { self.new ≡ record self.old { running = filter (λ child. not (child.number == number)) self.old.running } }
    {
        self.running.retain(|started| started.number() != number);
    }
}

/// Starts the process with an empty standard input and nowhere for its standard output. The system gives the child the standard error
/// only where it is named: one that this program opened itself, since it was closed, is kept from children.
fn spawn<R: Processes>(
    rt: &R,
    errors: Stderr,
    mut command: Command,
) -> io::Result<process::Child<R::Started>> {
    command
        .stdin(Stdio::null())
        .stdout(Stdio::null())
        .stderr(Stdio::from(errors));
    command.spawn(rt)
}

/// The command of these words: the first names the program, which is looked for by PATH where it has no slash.
fn command_of(alloc: Global, words: &Words) -> Result<Command, StartErr>
    requires { 0 < length words.now }
    ensures program { IfOk result (λ command. slice_get words.now 0 ≡ Some (command_program command)) }
    ensures args { IfOk result (λ command. command_args command ≡ drop 1 words.now) }
{
    let mut command = Command::new(alloc, text(words.get(0))?)?;
    for at in 1..words.count() {
        add_argument(&mut command, text(words.get(at))?)?;
    }
    Ok(command)
}

fn add_argument(command: &mut Command, text: &str) -> Result<(), StartErr>
    ensures program { OnOk result (command_program command.new ≡ command_program command.old) }
    ensures args { OnOk result (command_args command.new ≡ command_args command.old ++ text.now ∷ []) }
{
    command.arg(text)?;
    Ok(())
}

fn text(word: &[u8]) -> Result<&str, StartErr>
    ensures { IfOk result (λ text. text.now ≡ word.now) }
{
    match str::from_utf8(word) {
        Ok(text) => Ok(text),
        Err(_) => Err(StartErr::Failed),
    }
}
