//! The program `fwknopd`: the words of the command line and the objects of the system, handed to `fk_serve`.
//!
//! Nothing is decided here; start at `run`. What the words ask for, and which number the process ends with, is said by `fk_serve::fwknopd_run`.
#![tactic(auto)]

use fk_base::{NoMemory, Status, Words};
use fk_program::argument_words;
use fk_serve::fwknopd_run;
use fk_system::{DirFiles, StdSink, StdSource, SysHost, TimedOutput, UdpFeed, take_closed_streams};
use std::process::ExitCode;

fn main(rt: HostRuntime) -> ExitCode {
    take_closed_streams(&rt);
    ExitCode::from(run(&rt).exit_code())
}

/// Runs on the system's objects. Where there is no memory for the words nothing is read or written.
fn run(rt: &HostRuntime) -> Status {
    match argument_words(rt.alloc(), rt) {
        Ok(words) => run_on(rt, &words),
        Err(NoMemory) => Status::NoMemory,
    }
}

fn run_on(rt: &HostRuntime, words: &Words) -> Status {
    let Ok(for_files) = rt.clone() else {
        return Status::NoMemory;
    };
    let Ok(for_feed) = rt.clone() else {
        return Status::NoMemory;
    };
    let Ok(for_host) = rt.clone() else {
        return Status::NoMemory;
    };
    fwknopd_run(
        rt.alloc(),
        words,
        &mut DirFiles::new(rt.alloc(), for_files),
        &mut UdpFeed::new(for_feed),
        &mut SysHost::new(rt.alloc(), for_host, rt.stderr()),
        &mut StdSource::new(rt.reader()),
        &mut StdSink::new(TimedOutput::new(rt.stdout())),
    )
}
