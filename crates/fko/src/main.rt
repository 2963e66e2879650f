//! The program `fko`: the words of the command line and the objects of the system, handed to `fk_tool`.
//!
//! Nothing is decided here; start at `run`. What the words mean, and which number the process ends with, is said by `fk_tool::fko_run`.
#![tactic(auto)]

use fk_base::{NoMemory, Status, Words};
use fk_program::argument_words;
use fk_system::{
    DirFiles, StdSink, StdSource, SysEntropy, SysHost, TimedOutput, take_closed_streams,
};
use fk_tool::fko_run;
use std::process::ExitCode;

fn main(rt: HostRuntime) -> ExitCode {
    take_closed_streams(&rt);
    ExitCode::from(run(&rt).exit_code())
}

/// Runs on the system's objects. Where there is no memory for the words nothing is read or written.
fn run(rt: &HostRuntime) -> Status {
    match argument_words(rt.alloc(), rt) {
        Ok(words) => run_words(rt, &words),
        Err(NoMemory) => Status::NoMemory,
    }
}

fn run_words(rt: &HostRuntime, words: &Words) -> Status {
    let Ok(for_files) = rt.clone() else {
        return Status::NoMemory;
    };
    let Ok(for_entropy) = rt.clone() else {
        return Status::NoMemory;
    };
    let Ok(for_disk) = rt.clone() else {
        return Status::NoMemory;
    };
    fko_run(
        rt.alloc(),
        words,
        &mut DirFiles::new(rt.alloc(), for_files),
        &mut SysEntropy::new(for_entropy),
        &mut SysHost::new(rt.alloc(), for_disk, rt.stderr()),
        &mut StdSource::new(rt.reader()),
        &mut StdSink::new(TimedOutput::new(rt.stdout())),
    )
}
