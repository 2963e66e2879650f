//! A line is joined of its parts, and written. A command's words are one part.
ghost use Rattle.std.specs.Prelude.{◌≡◌, ◌<◌, ◌++◌, ◌∷◌, IfOk, OnOk, is_err, length, map};
ghost use Rattle.fk_log.specs.Line.{words_text};
ghost use Rattle.fk_log.specs.Printing.{Prints, sink_by};
ghost use Rattle.fk_tool.specs.Lines.{line_of_parts};

use fk_base::{Bytes, Failed, NoMemory, Words};
use fk_host::{Sink, write_all};
use std::alloc::Global;

/// The parts with a space between them, and a line feed.
pub(crate) fn line_of_parts(alloc: Global, parts: &[&[u8]]) -> Result<Bytes, NoMemory>
    requires { 0 < length parts.now }
    ensures { IfOk result (λ line. line ≡ line_of_parts (map (λ part. part.now) parts.now)) }
{
    let mut line = Bytes::copy(alloc, parts[0])?;
    for at in 1..parts.len() {
        put_part(parts[at], &mut line)?;
    }
    line.append(b"\n")?;
    Ok(line)
}

/// A command's words, joined by one space.
pub(crate) fn words_text(alloc: Global, words: &Words) -> Result<Bytes, NoMemory>
    ensures { IfOk result (λ text. text ≡ words_text words.now) }
{
    if words.count() == 0 {
        return Ok(Bytes::new(alloc));
    }
    let mut text = Bytes::copy(alloc, words.get(0))?;
    for at in 1..words.count() {
        put_part(words.get(at), &mut text)?;
    }
    Ok(text)
}

/// Puts a space and the part behind the text.
fn put_part(part: &[u8], text: &mut Bytes) -> Result<(), NoMemory>
    ensures { OnOk result (text.new ≡ text.old ++ 32 ∷ part.now) }
{
    text.append(b" ")?;
    text.append(part)
}

/// Writes a line.
pub(crate) fn write_line<K: Sink>(line: &[u8], out: &mut K) -> Result<(), Failed>
    ensures { let at = sink_by K.Sink in Prints line.now (is_err result) (at out.old) (at out.new) }
{
    write_all(out, line)
}
