//! What a client prints, in pieces, without memory.
ghost use Rattle.std.specs.Prelude.{◌≡◌, ◌++◌, ◌∷◌, [], Some, is_err};
ghost use Rattle.std.specs.List.{flat_map};
ghost use Rattle.fk_log.specs.Printing.{Prints, sink_by};
ghost use Rattle.fk_program.specs.Telling.{Says, Shows};

use fk_base::{Failed, Status};
use fk_host::{Sink, write_all};
use fk_program::printed_status;

/// Prints the line of what was done.
pub(crate) fn show_line<K: Sink>(pieces: &[&[u8]], out: &mut K) -> Status
    ensures { let at = sink_by K.Sink in
        Shows (flat_map (λ piece. piece.now) pieces.now ++ 10 ∷ []) (at out.old) (at out.new) result }
{
    printed_status(write_line(pieces, out))
}

/// Prints the line of a fault, which hides that of the output.
pub(crate) fn say_line<K: Sink>(pieces: &[&[u8]], out: &mut K)
    ensures { let at = sink_by K.Sink in
        Says (Some (flat_map (λ piece. piece.now) pieces.now ++ 10 ∷ [])) (at out.old) (at out.new) }
{
    let _said = write_line(pieces, out);
}

/// Writes the pieces and a line feed.
fn write_line<K: Sink>(pieces: &[&[u8]], out: &mut K) -> Result<(), Failed>
    ensures { let at = sink_by K.Sink in
        Prints (flat_map (λ piece. piece.now) pieces.now ++ 10 ∷ []) (is_err result) (at out.old) (at out.new) }
{
    for piece in pieces {
        write_all(out, piece)?;
    }
    write_all(out, b"\n")
}
