ghost use Rattle.std.specs.Prelude.{◌≡◌, false, true, MatchOption, MatchResult, None, Some};
ghost use Rattle.std.specs.List.{list_all, prefix_len};
ghost use Rattle.fk_packet.specs.Shape.{shape_fault};
ghost use Rattle.fk_text.specs.Found.{is_letter};

use fk_text::first_bad_byte;

/// The letters that begin the text of all sealed bytes, and that are left out of a datagram.
pub(crate) const PREFIX: &[u8; 10] = b"U2FsdGVkX1";

const SHORTEST_DATAGRAM: usize = 140;

const LONGEST_DATAGRAM: usize = 1500;

/// Why a datagram has not the right shape, in the order in which it is tested.
#[derive(Clone, Copy, Debug, PartialEq, Eq)]
pub enum PacketShape {
    /// It has fewer than 140 or more than 1500 bytes.
    Size,
    /// The first place whose byte is none of the 64 letters of base64.
    Alphabet(usize),
    /// It begins with the ten letters that are left out.
    Prefix,
}

/// The first test of its shape that a datagram fails. It asks for no key and no memory.
pub fn shape(datagram: &[u8]) -> Result<(), PacketShape>
    ensures { MatchResult result (λ _. shape_fault datagram.now ≡ None) (λ fault. shape_fault datagram.now ≡ Some fault) }
{
    if datagram.len() < SHORTEST_DATAGRAM || datagram.len() > LONGEST_DATAGRAM {
        return Err(PacketShape::Size);
    }
    if let Some(place) = first_other(datagram) {
        return Err(PacketShape::Alphabet(place));
    }
    if datagram.starts_with(PREFIX) {
        return Err(PacketShape::Prefix);
    }
    Ok(())
}

/// The first place whose byte is none of the 64 letters. It is looked for only where there is one.
fn first_other(bytes: &[u8]) -> Option<usize>
    ensures { MatchOption result
        (list_all is_letter bytes.now ≡ true)
        (λ place. (list_all is_letter bytes.now ≡ false) × (prefix_len is_letter bytes.now ≡ place)) }
{
    if are_letters(bytes) {
        None
    } else {
        first_bad_byte(bytes)
    }
}

/// Whether each byte is one of the 64 letters. Nothing ends the test early, so that a compiler can test sixteen bytes at a time.
fn are_letters(bytes: &[u8]) -> bool
    ensures { result ≡ list_all is_letter bytes.now }
{
    let mut letters = true;
    for byte in bytes {
        letters &= is_letter(*byte);
    }
    letters
}

/// The alphabet of RFC 4648, section 4, by its ranges.
#[tactic(auto, using(crate::proofs::TextLetters::by_ranges))]
fn is_letter(byte: u8) -> bool
    ensures { result ≡ is_letter byte }
{
    byte.is_ascii_alphanumeric() | (byte == b'+') | (byte == b'/')
}
