//! A crash at every moment of a run, and a second run on what it leaves.
//!
//! The first run is played whole, and then cut off after each of its calls. For each of the two images that the host gives there, the
//! second run begins on it. A case fails where an open of one datagram was attempted twice over both runs, where a record that the
//! second run found live has no close attempted in that run's first turn at or past its due, or where the second run does not end with
//! Done.
use crate::answer::Answer;
use crate::areas::{Areas, left_by};
use crate::daemon::run_over;
use crate::fault::Fault;
use crate::fields::Fields;
use crate::memory::{MemFiles, MemHost};
use crate::setup::Setup;
use crate::stage::Stage;
use fk_base::{NoMemory, Status, Words, read_decimal};
use std::alloc::Global;
use std::str;

/// An open that the first run attempted: of its turn's datagram, and by the call of the host with this number.
#[derive(Clone, Copy)]
struct Attempt {
    turn: usize,
    moment: u64,
}

/// The two runs.
#[derive(Drop)]
struct Runs {
    alloc: Global,
    words: Words,
    list: Words,
    first: Setup,
    second: Setup,
}

/// Plays the second run after each crash of the first, and tells which cases fail, and how many there are.
pub fn stop_everywhere(stage: &mut Stage, fields: &mut Fields<'_>) -> Result<Answer, Fault> {
    if fields.word()? != "everywhere" {
        return Err(Fault::NotUnderstood);
    }
    let runs = runs_of(stage, fields)?;
    let mut answer = Answer::new(stage.alloc);
    let cases = stop_first(&runs, &mut stage.files, &stage.areas, &mut answer)?;
    say_cases(runs.alloc, cases, &mut answer)?;
    Ok(answer)
}

/// Plays the first run, and then the second after each crash of it. Answers how many cases these were.
fn stop_first(
    runs: &Runs,
    files: &mut MemFiles,
    areas: &Areas,
    answer: &mut Answer,
) -> Result<u64, Fault> {
    let alloc = runs.alloc;
    let ran = run_over(alloc, &runs.words, files, &runs.first, areas, usize::MAX)?;
    let attempts = attempts_of(runs, files, areas, ran.out.written())?;
    stop_after_each(runs, files, &attempts, &ran.host, answer)
}

fn stop_after_each(
    runs: &Runs,
    files: &mut MemFiles,
    attempts: &[Attempt],
    host: &MemHost,
    answer: &mut Answer,
) -> Result<u64, Fault> {
    let mut cases = 0u64;
    for moment in 0..host.moments().saturating_add(1) {
        for keep in [true, false] {
            if !holds_after(runs, files, attempts, host, moment, keep)? {
                say_failing(runs.alloc, moment, keep, answer)?;
            }
            cases = cases.saturating_add(1);
        }
    }
    Ok(cases)
}

fn holds_after(
    runs: &Runs,
    files: &mut MemFiles,
    attempts: &[Attempt],
    host: &MemHost,
    moment: u64,
    keep: bool,
) -> Result<bool, Fault> {
    match left_by(host, moment, keep)? {
        Some(areas) => holds(runs, files, attempts, moment, &areas),
        None => Err(Fault::OutOfPlace),
    }
}

fn say_failing(
    alloc: Global,
    moment: u64,
    keep: bool,
    answer: &mut Answer,
) -> Result<(), NoMemory> {
    let which = if keep { "keep" } else { "lose" };
    answer.say_text(format!(in alloc; "crash {moment} {which} fails")?)
}

fn say_cases(alloc: Global, cases: u64, answer: &mut Answer) -> Result<(), NoMemory> {
    answer.say_text(format!(in alloc; "cases {cases}")?)
}

fn runs_of(stage: &mut Stage, fields: &mut Fields<'_>) -> Result<Runs, Fault> {
    let mut words = stage.names.words(fields.all_or_none())?;
    words.push(b"-v")?;
    let mut list = Words::new(stage.alloc);
    list.push(b"--fw-list")?;
    Ok(Runs {
        alloc: stage.alloc,
        words,
        list,
        first: stage.first.take().ok_or(Fault::OutOfPlace)?,
        second: stage.take_setup(),
    })
}

/// The opens that the first run attempted. After an open a turn starts closes alone, so its moment is counted from the turn's end.
fn attempts_of(
    runs: &Runs,
    files: &mut MemFiles,
    areas: &Areas,
    printed: &[u8],
) -> Result<Vec<Attempt>, Fault> {
    let printed = text_of(printed)?;
    let mut attempts = Vec::new(runs.alloc);
    for turn in 0..runs.first.turns.len() {
        let number = turn.saturating_add(1);
        if count_lines(printed, number, OPENS, None) > 0 {
            let ran = run_over(runs.alloc, &runs.words, files, &runs.first, areas, number)?;
            let closes = count_lines(printed, number, CLOSES, None);
            let moment = ran.host.moments().saturating_sub(closes);
            attempts.push(Attempt { turn, moment })?;
        }
    }
    Ok(attempts)
}

/// Whether all holds of the second run on these areas, after a crash of the first at this moment.
fn holds(
    runs: &Runs,
    files: &mut MemFiles,
    attempts: &[Attempt],
    moment: u64,
    areas: &Areas,
) -> Result<bool, Fault> {
    let alloc = runs.alloc;
    let listed = run_over(alloc, &runs.list, files, &runs.second, areas, 0)?;
    let ran = run_over(alloc, &runs.words, files, &runs.second, areas, usize::MAX)?;
    let printed = text_of(ran.out.written())?;
    let live = text_of(listed.out.written())?;
    Ok(
        listed.status == Status::Done
            && ran.status == Status::Done
            && closes_all(&runs.second, live, printed)
            && !opens_twice(runs, attempts, moment, printed)?,
    )
}

fn text_of(printed: &[u8]) -> Result<&str, Fault> {
    str::from_utf8(printed).map_err(|_| Fault::OutOfPlace)
}

/// Whether each listed record has a close attempted in the first turn at or past its due.
fn closes_all(second: &Setup, live: &str, printed: &str) -> bool {
    live.lines()
        .all(|record| closes_one(second, record, printed))
}

fn closes_one(second: &Setup, record: &str, printed: &str) -> bool {
    let mut words = record.split(' ');
    let (Some(id), Some(_), Some(due)) = (words.next(), words.next(), words.next()) else {
        return false;
    };
    let Ok(due) = read_decimal(due.as_bytes()) else {
        return false;
    };
    match second
        .turns
        .iter()
        .position(|turn| due <= turn.moment.get())
    {
        Some(turn) => count_lines(printed, turn.saturating_add(1), CLOSES, Some(id)) > 0,
        None => true,
    }
}

/// Whether an open of one datagram was attempted twice: by the first run up to the crash and by the second.
fn opens_twice(
    runs: &Runs,
    attempts: &[Attempt],
    moment: u64,
    printed: &str,
) -> Result<bool, NoMemory> {
    let mut opened = Vec::new(runs.alloc);
    add_first(&runs.first, attempts, moment, &mut opened)?;
    add_second(&runs.second, printed, &mut opened)?;
    Ok(has_twice(&opened))
}

fn add_first<'a>(
    first: &'a Setup,
    attempts: &[Attempt],
    moment: u64,
    opened: &mut Vec<&'a [u8]>,
) -> Result<(), NoMemory> {
    for attempt in attempts {
        if attempt.moment <= moment {
            opened.push(datagram_of(first, attempt.turn))?;
        }
    }
    Ok(())
}

fn add_second<'a>(
    second: &'a Setup,
    printed: &str,
    opened: &mut Vec<&'a [u8]>,
) -> Result<(), NoMemory> {
    for turn in 0..second.turns.len() {
        if count_lines(printed, turn.saturating_add(1), OPENS, None) > 0 {
            opened.push(datagram_of(second, turn))?;
        }
    }
    Ok(())
}

fn datagram_of(setup: &Setup, turn: usize) -> &[u8] {
    match setup.turns.get(turn) {
        Some(turn) => match &turn.datagram {
            Some(bytes) => bytes.as_slice(),
            None => b"",
        },
        None => b"",
    }
}

fn has_twice(all: &[&[u8]]) -> bool {
    for (at, first) in all.iter().enumerate() {
        if all[at + 1..].iter().any(|other| *other == *first) {
            return true;
        }
    }
    false
}

const OPENS: [&str; 2] = ["open", "open-failed"];

const CLOSES: [&str; 2] = ["close", "close-failed"];

/// How many lines of these kinds a turn has, of this record where one is given. The output tells each turn.
fn count_lines(printed: &str, turn: usize, kinds: [&str; 2], id: Option<&str>) -> u64 {
    let mut count = 0u64;
    let mut now = 0usize;
    for line in printed.lines() {
        let mut words = line.split(' ').skip(1);
        match (words.next(), words.next()) {
            (Some("turn"), Some(_)) => now = now.saturating_add(1),
            (Some(kind), Some(of)) if now == turn && is_one_of(kind, kinds) => {
                if id.is_none() || id == Some(of) {
                    count = count.saturating_add(1);
                }
            }
            _ => {}
        }
    }
    count
}

fn is_one_of(kind: &str, kinds: [&str; 2]) -> bool {
    kind == kinds[0] || kind == kinds[1]
}
