//! The program `fk_sessions SHARED FILE ..`: it plays the sessions of each file over objects in memory, and compares what comes with what the
//! file says.
//!
//! A session is a worked row: files, turns and what fails, then runs of `fwknopd` or `fwknop` with the lines that they have to print.
//! The program knows no expected value itself, and proves nothing of the crates below; it is not installed. docs/sessions.md lists the
//! lines of a session.
//!
//! Start at `play`, then `stage`; what a line sets up is in `setting`, and what it runs in `running`.
#![tactic(auto)]

mod answer;
mod areas;
mod client;
mod closed;
mod comparing;
mod daemon;
mod fault;
mod fields;
mod journal;
mod ledger;
mod line;
mod memory;
mod names;
mod objects;
mod places;
mod play;
mod quiet;
mod report;
mod running;
mod setting;
mod setup;
mod show;
mod stage;
mod stops;

use fk_base::NoMemory;
use play::{File, play_file};
use std::process::ExitCode;
use std::{env, fs, io};

fn main(rt: HostRuntime) -> ExitCode {
    match run(&rt) {
        Ok(true) => ExitCode::SUCCESS,
        Ok(false) => ExitCode::FAILURE,
        Err(_) => ExitCode::from(2),
    }
}

/// Plays the sessions of each file but the first, which has the lines that they share, and answers whether all came as the files say.
fn run(rt: &HostRuntime) -> io::Result<bool> {
    let mut names = env::args(rt)?.skip(1);
    let Some(shared) = names.next() else {
        println!(rt; "usage: fk_sessions SHARED FILE ..")?;
        return Ok(false);
    };
    let text = fs::read_to_string(rt, shared.as_str())?;
    let shared = File {
        name: shared.as_str(),
        text: text.as_str(),
    };
    let mut all = true;
    for name in names {
        if !run_file(rt, shared, name.as_str())? {
            all = false;
        }
    }
    Ok(all)
}

fn run_file(rt: &HostRuntime, shared: File<'_>, name: &str) -> io::Result<bool> {
    let text = fs::read_to_string(rt, name)?;
    let file = File {
        name,
        text: text.as_str(),
    };
    match play_file(rt.alloc(), shared, file) {
        Ok(played) => {
            print!(rt; "{}", played.text())?;
            Ok(played.is_right())
        }
        Err(NoMemory) => Err(io::ErrorKind::OutOfMemory.into()),
    }
}
