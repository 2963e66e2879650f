//! The text of a term: pieces joined by `+`, each a text in quotes, digits, lines or a name, as often as is said and cut where is said.
ghost use Rattle.std.specs.Prelude.{◌<◌, IfOk};

use crate::RowFault;
use crate::names::Names;
use crate::scanner::Scanner;
use fk_base::Bytes;
use std::alloc::Global;

/// Whether a text comes next, and no word.
pub(crate) fn begins_text(scanner: &Scanner<'_>) -> bool {
    scanner.begins(b"\"") || scanner.begins(b"x\"") || scanner.begins(b"$") || scanner.begins(b"|")
}

/// Reads a text.
pub(crate) fn read_text(
    alloc: Global,
    scanner: &mut Scanner<'_>,
    names: &Names,
) -> Result<Bytes, RowFault> {
    let mut text = Bytes::new(alloc);
    for _ in 0..scanner.len() {
        put_piece(alloc, scanner, names, &mut text)?;
        if !takes_plus(scanner) {
            return Ok(text);
        }
    }
    Err(RowFault::BadText)
}

/// Takes a plus sign and the blanks round it, where one comes next.
fn takes_plus(scanner: &mut Scanner<'_>) -> bool {
    scanner.skip_blanks();
    let found = scanner.takes_sign(b'+');
    scanner.skip_blanks();
    found
}

fn put_piece(
    alloc: Global,
    scanner: &mut Scanner<'_>,
    names: &Names,
    out: &mut Bytes,
) -> Result<(), RowFault> {
    if scanner.begins(b"|") {
        return put_lines(scanner, out);
    }
    let mut once = Bytes::new(alloc);
    put_once(scanner, names, &mut once)?;
    let times = if scanner.takes(b"*") {
        scanner.take_number()?
    } else {
        1
    };
    let mut whole = Bytes::new(alloc);
    for _ in 0..times {
        whole.append(once.as_slice())?;
    }
    out.append(front(scanner, whole.as_slice())?)?;
    if scanner.is_at_gap() {
        Ok(())
    } else {
        Err(RowFault::BadText)
    }
}

/// The front of a text that `[..N]` asks for, or the whole.
fn front<'t>(scanner: &mut Scanner<'_>, text: &'t [u8]) -> Result<&'t [u8], RowFault> {
    if !scanner.takes(b"[..") {
        return Ok(text);
    }
    let len = scanner.take_number()?;
    if len <= text.len() && scanner.takes(b"]") {
        Ok(&text[..len])
    } else {
        Err(RowFault::BadText)
    }
}

fn put_once(scanner: &mut Scanner<'_>, names: &Names, out: &mut Bytes) -> Result<(), RowFault> {
    if scanner.takes(b"\"") {
        put_quoted(scanner, out)
    } else if scanner.takes(b"x\"") {
        put_digits(scanner, out)
    } else if scanner.takes(b"$") {
        out.append(
            names
                .find(scanner.take_name())
                .ok_or(RowFault::UnknownName)?,
        )?;
        Ok(())
    } else {
        Err(RowFault::BadText)
    }
}

/// Reads what stands between quotes, behind the first.
fn put_quoted(scanner: &mut Scanner<'_>, out: &mut Bytes) -> Result<(), RowFault> {
    for _ in 0..scanner.len() {
        match scanner.take() {
            Some(b'"') => return Ok(()),
            Some(b'\\') => out.append(&[escaped(scanner)?])?,
            Some(byte) => out.append(&[byte])?,
            None => return Err(RowFault::BadText),
        }
    }
    Err(RowFault::BadText)
}

/// The byte that stands behind a backslash.
fn escaped(scanner: &mut Scanner<'_>) -> Result<u8, RowFault> {
    match scanner.take() {
        Some(b'n') => Ok(b'\n'),
        Some(b'r') => Ok(b'\r'),
        Some(b't') => Ok(b'\t'),
        Some(b'x') => two_digits(scanner),
        Some(b'"') => Ok(b'"'),
        Some(b'\\') => Ok(b'\\'),
        _ => Err(RowFault::BadText),
    }
}

/// Reads hexadecimal digits up to the quote.
fn put_digits(scanner: &mut Scanner<'_>, out: &mut Bytes) -> Result<(), RowFault> {
    for _ in 0..scanner.len() {
        if scanner.takes(b"\"") {
            return Ok(());
        }
        out.append(&[two_digits(scanner)?])?;
    }
    Err(RowFault::BadText)
}

fn two_digits(scanner: &mut Scanner<'_>) -> Result<u8, RowFault> {
    let high = digit(scanner)?;
    let low = digit(scanner)?;
    Ok(high * 16 + low)
}

fn digit(scanner: &mut Scanner<'_>) -> Result<u8, RowFault>
    ensures { IfOk result (λ digit. digit < 16) }
{
    match scanner.take() {
        Some(byte @ b'0'..=b'9') => Ok(byte - b'0'),
        Some(byte @ b'a'..=b'f') => Ok(byte - b'a' + 10),
        _ => Err(RowFault::BadText),
    }
}

/// Reads lines behind bars, each with its line feed.
fn put_lines(scanner: &mut Scanner<'_>, out: &mut Bytes) -> Result<(), RowFault> {
    for _ in 0..scanner.len() {
        if !scanner.takes(b"|") {
            return Ok(());
        }
        let _space = scanner.takes(b" ");
        out.append(scanner.take_line())?;
        out.append(b"\n")?;
        scanner.skip_blanks();
    }
    Ok(())
}
