//! The program `fk_rows FILE ..`: worked rows of the crates that read, write, seal and decide.
//!
//! A row names a call, its arguments and the answer that is wanted; docs/rows.md has the language. The rows of a crate stand in
//! `data/NAME.rows`, and its calls in the module of its name, without `fk_`. It is no part of the product, and nothing is proved by it.
//!
//! Start at `row_calls`, which asks each module in turn.
#![tactic(auto)]

mod access;
mod admit;
mod aes;
mod base;
mod cbc;
mod client;
mod codec;
mod conf;
mod cutting_sink;
mod cycle;
mod fields;
mod input;
mod lines;
mod log;
mod log_item;
mod mac;
mod packet;
mod packet_fields;
mod reading;
mod row_calls;
mod showing;
mod subst;
mod text;
mod timer;
mod values;
mod words;

use fk_base::{NoMemory, Words};
use fk_program::argument_words;
use fk_row_text::run_rows;
use fk_system::{DirFiles, StdSink};
use row_calls::RowCalls;
use std::io;
use std::process::ExitCode;

fn main(rt: HostRuntime) -> ExitCode {
    match argument_words(rt.alloc(), &rt) {
        Ok(files) if all_hold(&rt, &files) => ExitCode::SUCCESS,
        Ok(_) | Err(NoMemory) => ExitCode::FAILURE,
    }
}

/// Runs the rows of these files, and answers whether all hold.
fn all_hold(rt: &HostRuntime, names: &Words) -> bool {
    let Ok(for_files) = rt.clone() else {
        return false;
    };
    let mut files = DirFiles::new(rt.alloc(), for_files);
    let mut out = StdSink::new(io::writer(rt));
    run_rows(
        rt.alloc(),
        names,
        &mut files,
        &mut RowCalls::new(),
        &mut out,
    )
}
