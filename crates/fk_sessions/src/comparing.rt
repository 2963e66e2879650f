//! What came is compared with what has to come.
use crate::answer::{Answer, name_of};
use crate::fault::Fault;
use crate::line::Line;
use crate::names::Names;
use crate::report::Report;
use fk_base::{Bytes, NoMemory, Status};

/// What is left to compare of an answer.
#[derive(Drop)]
struct Left<'a> {
    text: &'a [u8],
    status: Option<Status>,
}

/// Compares what a line brought with the lines below it, and tells each difference. A run without a line `status` has to end with Done.
pub fn compare(
    names: &Names,
    answer: &Answer,
    line: &Line<'_>,
    below: &[Line<'_>],
    report: &mut Report,
) -> Result<(), NoMemory> {
    let mut left = Left {
        text: answer.text(),
        status: answer.status(),
    };
    let mut is_told = answer.status().is_none();
    for wanted in below {
        match left.differs(names, wanted) {
            Ok(None) => {}
            Ok(Some(came)) => report.fail(wanted, "there came: ", came)?,
            Err(Fault::NoMemory) => return Err(NoMemory),
            Err(fault) => report.fail(wanted, fault.text(), b"")?,
        }
        is_told = is_told || wanted.text.starts_with("status ");
    }
    if !left.text.is_empty() {
        report.fail(line, "there came further: ", left.text)?;
    }
    if !is_told && answer.status() != Some(Status::Done) {
        report.fail(line, "it ended with: ", left.status_name())?;
    }
    Ok(())
}

impl<'a> Left<'a> {
    /// What came in place of what the line wants, if it differs.
    fn differs(&mut self, names: &Names, wanted: &Line<'_>) -> Result<Option<&'a [u8]>, Fault> {
        if let Some(name) = wanted.text.strip_prefix("status ") {
            let came = self.status_name();
            return Ok(if came == name.as_bytes() {
                None
            } else {
                Some(came)
            });
        }
        let (text, is_whole) = wanted_text(names, wanted)?;
        let came = self.take(is_whole, text.as_slice().len());
        Ok(if came == text.as_slice() {
            None
        } else {
            Some(came)
        })
    }

    fn status_name(&self) -> &'static [u8] {
        match self.status {
            Some(status) => name_of(status).as_bytes(),
            None => b"no run",
        }
    }

    /// Takes the next line with its line feed, or so many bytes.
    fn take(&mut self, is_line: bool, count: usize) -> &'a [u8] {
        let len = self.text.len();
        let end = if is_line {
            match self.text.iter().position(|byte| *byte == b'\n') {
                Some(at) => at.saturating_add(1),
                None => len,
            }
        } else {
            count
        };
        let (front, rest) = self.text.split_at(end.min(len));
        self.text = rest;
        front
    }
}

/// The bytes that a line wants, and whether they are a whole line.
fn wanted_text(names: &Names, wanted: &Line<'_>) -> Result<(Bytes, bool), Fault> {
    if let Some(written) = wanted.text.strip_prefix(">| ") {
        return Ok((names.bytes(written)?, false));
    }
    let written = match wanted.text.strip_prefix("> ") {
        Some(written) => written,
        None if wanted.text == ">" => "",
        None => return Err(Fault::NotUnderstood),
    };
    let mut text = names.bytes(written)?;
    text.append(b"\n")?;
    Ok((text, true))
}
