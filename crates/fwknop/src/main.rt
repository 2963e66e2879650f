//! The program `fwknop`: the words of the command line, the clock and the objects of the system, handed to `fk_client`.
//!
//! Nothing is decided here; start at `run`. What the words mean, and which number the process ends with, is said by `fk_client::fwknop_run`.
#![tactic(auto)]

use fk_base::{NoMemory, Status, Words};
use fk_client::fwknop_run;
use fk_program::argument_words;
use fk_system::{
    DirFiles, StdSink, SysEntropy, TimedOutput, UdpLink, system_moment, take_closed_streams,
};
use std::process::ExitCode;

fn main(rt: HostRuntime) -> ExitCode {
    take_closed_streams(&rt);
    ExitCode::from(run(&rt).exit_code())
}

/// Runs on the system's objects. Where there is no memory for the words nothing is read or written.
fn run(rt: &HostRuntime) -> Status {
    match argument_words(rt.alloc(), rt) {
        Ok(words) => run_words(rt, &words),
        Err(NoMemory) => Status::NoMemory,
    }
}

fn run_words(rt: &HostRuntime, words: &Words) -> Status {
    let Ok(for_files) = rt.clone() else {
        return Status::NoMemory;
    };
    let Ok(for_entropy) = rt.clone() else {
        return Status::NoMemory;
    };
    let Ok(for_link) = rt.clone() else {
        return Status::NoMemory;
    };
    fwknop_run(
        rt.alloc(),
        words,
        &mut DirFiles::new(rt.alloc(), for_files),
        &mut SysEntropy::new(for_entropy),
        system_moment(rt),
        &mut UdpLink::new(for_link),
        &mut StdSink::new(TimedOutput::new(rt.stdout())),
    )
}
