use fk_base::Failed;
use fk_host::{Sink, write_all};
use itoa::Buffer;

/// Prints these pieces, one behind the other.
pub(crate) fn tell<K: Sink>(out: &mut K, pieces: &[&[u8]]) -> Result<(), Failed> {
    for piece in pieces {
        write_all(out, piece)?;
    }
    Ok(())
}

/// Prints what is wrong with the row in this line.
pub(crate) fn tell_row<K: Sink>(
    out: &mut K,
    file: &[u8],
    line: u64,
    what: &[&[u8]],
) -> Result<(), Failed> {
    tell(out, &[file, b":"])?;
    tell_number(out, line)?;
    tell(out, &[b": "])?;
    tell(out, what)?;
    tell(out, &[b"\n"])
}

/// Prints how many rows a file has, and how many of them failed where some did.
pub(crate) fn tell_count<K: Sink>(
    out: &mut K,
    file: &[u8],
    rows: u64,
    failed: u64,
) -> Result<(), Failed> {
    tell(out, &[file, b" "])?;
    tell_number(out, rows)?;
    tell(out, &[b" rows"])?;
    if failed > 0 {
        tell(out, &[b", "])?;
        tell_number(out, failed)?;
        tell(out, &[b" failed"])?;
    }
    tell(out, &[b"\n"])
}

fn tell_number<K: Sink>(out: &mut K, number: u64) -> Result<(), Failed> {
    let mut buffer = Buffer::new();
    write_all(out, buffer.format(number).as_bytes())
}
