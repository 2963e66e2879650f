use fk_base::NoMemory;
use std::alloc::Global;

/// A line of a file.
#[derive(Clone, Copy)]
pub struct Line<'a> {
    /// The file's name.
    pub file: &'a str,
    /// Counted from 1.
    pub number: usize,
    pub text: &'a str,
}

impl<'a> Line<'a> {
    /// Whether a session begins with it.
    pub fn begins_session(&self) -> bool {
        self.text.starts_with("session ")
    }

    /// Whether it belongs to the line above it: a line of a file, or one of what has to come.
    pub fn is_below(&self) -> bool {
        self.text.starts_with('|') || self.text.starts_with('>') || self.text.starts_with("status ")
    }
}

/// The lines of a file but the empty ones and the comments.
pub fn lines_of<'a>(
    alloc: Global,
    file: &'a str,
    text: &'a str,
) -> Result<Vec<Line<'a>>, NoMemory> {
    let mut lines = Vec::new(alloc);
    let mut number = 0usize;
    for text in text.lines() {
        number = number.saturating_add(1);
        if !text.is_empty() && !text.starts_with('#') {
            lines.push(Line { file, number, text })?;
        }
    }
    Ok(lines)
}

/// Those of the lines that belong to the line above them.
pub fn lines_below<'a, 'b>(lines: &'a [Line<'b>]) -> &'a [Line<'b>] {
    match lines.iter().position(|line| !line.is_below()) {
        Some(count) => &lines[..count],
        None => lines,
    }
}
