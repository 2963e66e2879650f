//! Runs of `fwknopd`.
use crate::answer::Answer;
use crate::areas::{Areas, read_from};
use crate::closed::ClosedFeed;
use crate::fault::Fault;
use crate::fields::Fields;
use crate::memory::{Feed, MemFiles, MemHost, MemSink};
use crate::setup::Setup;
use crate::stage::Stage;
use fk_base::{NoMemory, Status, Words};
use fk_serve::fwknopd_run;
use std::alloc::Global;

/// What a run of the daemon has left.
#[derive(Drop)]
pub struct Ran {
    pub status: Status,
    pub host: MemHost,
    pub out: MemSink,
    pub port: Option<u16>,
}

/// Runs `fwknopd` over what is set up and its first turns, so many of them.
pub fn run_over(
    alloc: Global,
    words: &Words,
    files: &mut MemFiles,
    setup: &Setup,
    areas: &Areas,
    turns: usize,
) -> Result<Ran, NoMemory> {
    if setup.is_closed {
        return run_on(alloc, words, files, setup, areas, &mut ClosedFeed::new());
    }
    let mut feed = setup.feed(turns)?;
    let mut ran = run_on(alloc, words, files, setup, areas, &mut feed)?;
    ran.port = feed.port();
    Ok(ran)
}

fn run_on<E: Feed>(
    alloc: Global,
    words: &Words,
    files: &mut MemFiles,
    setup: &Setup,
    areas: &Areas,
    feed: &mut E,
) -> Result<Ran, NoMemory> {
    let mut host = setup.host(areas)?;
    let mut input = setup.source()?;
    let mut out = setup.sink();
    let status = fwknopd_run(alloc, words, files, feed, &mut host, &mut input, &mut out);
    Ok(Ran {
        status,
        host,
        out,
        port: None,
    })
}

/// Runs `fwknopd` over what the session has. Its areas are then what the run has left.
pub fn run_daemon(stage: &mut Stage, fields: &mut Fields<'_>) -> Result<Answer, Fault> {
    let words = stage.names.words(fields.all_or_none())?;
    let setup = stage.take_setup();
    let ran = run_over(
        stage.alloc,
        &words,
        &mut stage.files,
        &setup,
        &stage.areas,
        usize::MAX,
    )?;
    let answer = Answer::of_run(stage.alloc, ran.out.written(), ran.status)?;
    stage.port = ran.port;
    leave(stage, ran.host)?;
    Ok(answer)
}

/// The session goes on with what the calls of the host have left.
pub fn leave(stage: &mut Stage, host: MemHost) -> Result<(), NoMemory> {
    stage.areas = read_from(&host)?;
    stage.host = Some(host);
    Ok(())
}
