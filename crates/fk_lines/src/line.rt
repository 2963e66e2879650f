ghost use Rattle.std.specs.Prelude.{◌≡◌, ◌<◌, ◌≤◌, length, MatchResult, IfOk, Ok, Err, true};
ghost use Rattle.std.specs.List.{list_all, position, position_or_len};
ghost use Rattle.fk_base.specs.Characters.{is_blank, is_line_byte};
ghost use Rattle.fk_lines.specs.Lines.{
  Setting,
  bare_line,
  bracketed_setting,
  is_bracketed,
  is_skipped,
  plain_setting,
  reading_of,
  setting_of,
};

use crate::LineFault;
use crate::trim::{is_blank, trim, trim_back, without_last};

/// The most bytes of a line between the blanks at its ends.
const LINE_LIMIT: usize = 2000;

/// What a line says: both are parts of it.
#[derive(Clone, Copy)]
pub(crate) struct Parts<'a> {
    pub(crate) name: &'a [u8],
    pub(crate) value: &'a [u8],
}

/// The line without the carriage return at its end and the blanks round it.
pub(crate) fn bare_line(raw: &[u8]) -> &[u8]
    ensures { result.now ≡ bare_line raw.now }
{
    trim(without_last(raw, b'\r'))
}

/// Whether the line is empty or a comment.
pub(crate) fn is_skipped(line: &[u8]) -> bool
    ensures { result ≡ is_skipped line.now }
{
    line.is_empty() || line[0] == b'#'
}

/// What a line says that is not skipped.
pub(crate) fn read_line(line: &[u8]) -> Result<Parts<'_>, LineFault>
    requires { 0 < length line.now }
    ensures says { MatchResult result
        (λ parts. reading_of line.now ≡ Ok (record { name = parts.name.now; value = parts.value.now }))
        (λ fault. reading_of line.now ≡ Err fault) }
    ensures bytes { IfOk result (λ parts. list_all is_line_byte parts.value.now ≡ true) }
{
    if line.len() > LINE_LIMIT {
        return Err(LineFault::TooLong);
    }
    if !are_line_bytes(line) {
        return Err(LineFault::BadByte);
    }
    let parts = parts_of(line);
    if parts.value.is_empty() {
        return Err(LineFault::NoValue);
    }
    Ok(parts)
}

fn are_line_bytes(line: &[u8]) -> bool
    ensures { result ≡ list_all is_line_byte line.now }
{
    line.iter()
        .all(|byte| *byte == b'\t' || (0x20 <= *byte && *byte <= 0x7e))
}

fn parts_of(line: &[u8]) -> Parts<'_>
    requires { 0 < length line.now }
    ensures { setting_of line.now ≡ record { name = result.name.now; value = result.value.now } }
{
    if line[0] == b'[' && line[line.len() - 1] == b']' {
        bracketed_parts(line)
    } else {
        plain_parts(line)
    }
}

fn bracketed_parts(line: &[u8]) -> Parts<'_>
    requires { 1 < length line.now }
    ensures { bracketed_setting line.now ≡ record { name = result.name.now; value = result.value.now } }
{
    Parts {
        name: b"[",
        value: trim(&line[1..line.len() - 1]),
    }
}

fn plain_parts(line: &[u8]) -> Parts<'_>
    ensures { plain_setting line.now ≡ record { name = result.name.now; value = result.value.now } }
{
    let name_len = name_len(line);
    Parts {
        name: without_last(&line[..name_len], b':'),
        value: trim_back(without_last(trim(&line[name_len..]), b';')),
    }
}

/// The length of the longest front without a blank.
fn name_len(line: &[u8]) -> usize
    ensures count { result ≡ position_or_len is_blank line.now }
    ensures within { result ≤ length line.now }
{
    first_blank(line).unwrap_or(line.len())
}

fn first_blank(line: &[u8]) -> Option<usize>
    ensures { result ≡ position is_blank line.now }
{
    line.iter().position(|byte| is_blank(*byte))
}
