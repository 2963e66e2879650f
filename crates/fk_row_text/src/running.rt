use crate::names::Names;
use crate::report::{tell, tell_count, tell_row};
use crate::row::{Row, read_definition, read_row};
use crate::row_cut::RowCut;
use crate::{Answer, Arguments, RowFault};
use fk_base::{Bytes, Failed, Words};
use fk_host::{FileErr, Files, Sink};
use std::alloc::Global;

/// What rows can call.
pub trait Calls {
    /// Forgets what earlier rows have left. It comes before the rows of each file.
    fn begin(&mut self);

    /// Makes the call of this name, takes its arguments, and adds what it answers. Answers whether there is such a call.
    fn call(
        &mut self,
        alloc: Global,
        name: &[u8],
        arguments: &mut Arguments<'_>,
        answer: &mut Answer,
    ) -> bool;
}

/// Runs the rows of the files of these names, and tells each row that fails and how many rows each file has. Answers whether all of them
/// hold.
pub fn run_rows<F: Files, C: Calls, K: Sink>(
    alloc: Global,
    names: &Words,
    files: &mut F,
    calls: &mut C,
    out: &mut K,
) -> bool {
    let mut hold = names.count() > 0;
    for at in 0..names.count() {
        match run_file(alloc, names.get(at), files, calls, out) {
            Ok(true) => {}
            Ok(false) | Err(Failed) => hold = false,
        }
    }
    hold
}

/// How a row went.
#[derive(Drop)]
enum Outcome {
    /// It names a text.
    Defines,
    Holds,
    /// Another answer came than the one that is wanted.
    Differs { came: Answer, wanted: Answer },
    Fails(RowFault),
}

fn run_file<F: Files, C: Calls, K: Sink>(
    alloc: Global,
    file: &[u8],
    files: &mut F,
    calls: &mut C,
    out: &mut K,
) -> Result<bool, Failed> {
    let mut text = Bytes::new(alloc);
    if files.read(file, &mut text).is_err() {
        tell(out, &[file, b" cannot be read\n"])?;
        return Ok(false);
    }
    calls.begin();
    let mut names = Names::new(alloc);
    let mut cut = RowCut::new(text.as_slice());
    let mut rows = 0u64;
    let mut failed = 0u64;
    for _ in 0..text.as_slice().len() {
        let Some((line, row)) = cut.next() else {
            break;
        };
        let outcome = run_row(alloc, row, &mut names, calls);
        if !matches!(&outcome, Outcome::Defines) {
            rows = rows.saturating_add(1);
        }
        if tell_outcome(&outcome, file, line, out)? {
            failed = failed.saturating_add(1);
        }
    }
    tell_count(out, file, rows, failed)?;
    Ok(failed == 0)
}

/// Tells what is wrong with a row, and answers whether something is.
fn tell_outcome<K: Sink>(
    outcome: &Outcome,
    file: &[u8],
    line: u64,
    out: &mut K,
) -> Result<bool, Failed> {
    match outcome {
        Outcome::Defines | Outcome::Holds => return Ok(false),
        Outcome::Differs { came, wanted } => {
            tell_row(
                out,
                file,
                line,
                &[
                    b"came ",
                    or_nothing(came),
                    b"\n    wanted ",
                    or_nothing(wanted),
                ],
            )?;
        }
        Outcome::Fails(fault) => tell_row(out, file, line, &[fault.reason()])?,
    }
    Ok(true)
}

fn or_nothing(answer: &Answer) -> &[u8] {
    if answer.line().is_empty() {
        b"nothing"
    } else {
        answer.line()
    }
}

fn run_row<C: Calls>(alloc: Global, row: &[u8], names: &mut Names, calls: &mut C) -> Outcome {
    match row.strip_prefix(b"let ") {
        Some(definition) => match read_definition(alloc, definition, names) {
            Ok(()) => Outcome::Defines,
            Err(fault) => Outcome::Fails(fault),
        },
        None => match answer_row(alloc, row, names, calls) {
            Ok(outcome) => outcome,
            Err(fault) => Outcome::Fails(fault),
        },
    }
}

fn answer_row<C: Calls>(
    alloc: Global,
    text: &[u8],
    names: &Names,
    calls: &mut C,
) -> Result<Outcome, RowFault> {
    if text.starts_with(b" ") {
        return Err(RowFault::LooseLine);
    }
    let row = read_row(alloc, text, names)?;
    let mut came = Answer::new(alloc);
    if let Some(fault) = call_fault(alloc, &row, calls, &mut came) {
        return Err(fault);
    }
    Ok(compared(came, row.wanted))
}

/// Makes the call of a row, and answers why the row fails where it has no answer.
fn call_fault<C: Calls>(
    alloc: Global,
    row: &Row<'_>,
    calls: &mut C,
    came: &mut Answer,
) -> Option<RowFault> {
    let mut arguments = Arguments::new(row.arguments.as_slice());
    if !calls.call(alloc, row.call, &mut arguments, came) {
        return Some(RowFault::UnknownCall);
    }
    if came.is_cut() || row.wanted.is_cut() {
        arguments.refuse(RowFault::NoMemory);
    }
    arguments.fault()
}

fn compared(came: Answer, wanted: Answer) -> Outcome {
    if came.line() == wanted.line() {
        Outcome::Holds
    } else {
        Outcome::Differs { came, wanted }
    }
}
