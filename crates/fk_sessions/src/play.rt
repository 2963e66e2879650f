//! The sessions of a file, one after the other.
use crate::line::{Line, lines_below, lines_of};
use crate::report::Report;
use crate::stage::Stage;
use fk_base::NoMemory;
use std::alloc::Global;

/// A file, by its name.
#[derive(Clone, Copy)]
pub struct File<'a> {
    pub name: &'a str,
    pub text: &'a str,
}

/// Plays the sessions of a file. Each begins with the lines of the shared file and those before the file's first session.
pub fn play_file(alloc: Global, shared: File<'_>, file: File<'_>) -> Result<Report, NoMemory> {
    let mut report = Report::new(alloc);
    let shared = lines_of(alloc, shared.name, shared.text)?;
    let lines = lines_of(alloc, file.name, file.text)?;
    let sessions = play_sessions(alloc, &shared, &lines, &mut report)?;
    report.end(file.name, sessions)?;
    Ok(report)
}

/// Answers how many sessions the lines have.
fn play_sessions(
    alloc: Global,
    shared: &[Line<'_>],
    lines: &[Line<'_>],
    report: &mut Report,
) -> Result<u64, NoMemory> {
    let mut parts = lines.split(|line| line.begins_session());
    let first = parts.next().unwrap_or(&[]);
    let mut sessions = 0u64;
    for own in parts {
        play_session(alloc, shared, first, own, report)?;
        sessions = sessions.saturating_add(1);
    }
    Ok(sessions)
}

fn play_session(
    alloc: Global,
    shared: &[Line<'_>],
    first: &[Line<'_>],
    own: &[Line<'_>],
    report: &mut Report,
) -> Result<(), NoMemory> {
    let mut stage = Stage::new(alloc);
    play_lines(&mut stage, shared, report)?;
    play_lines(&mut stage, first, report)?;
    play_lines(&mut stage, own, report)
}

/// Carries out each line, together with those that belong to it.
fn play_lines(stage: &mut Stage, lines: &[Line<'_>], report: &mut Report) -> Result<(), NoMemory> {
    for (at, line) in lines.iter().enumerate() {
        if at == 0 || !line.is_below() {
            stage.play(line, lines_below(&lines[at + 1..]), report)?;
        }
    }
    Ok(())
}
