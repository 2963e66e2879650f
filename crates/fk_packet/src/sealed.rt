ghost use Rattle.std.specs.Prelude.{◌≡◌, ◌+◌, ◌≤◌, [], ◌++◌, length, MatchOption, None, Some};
ghost use Rattle.fk_text.specs.Found.{bytes_in};
ghost use Rattle.fk_text.specs.Text.{text_of};
ghost use Rattle.fk_packet.specs.Shape.{prefix};

use crate::packet_shape::PREFIX;
use fk_text::{put_into, take_into};
use std::marker::Model;

/// The length of the longest datagram with the ten letters that are left out of it.
const TEXT_ROOM: usize = 1510;

/// The sealed bytes of a datagram. They take no memory.
#[derive(Drop)]
pub(crate) struct Sealed {
    bytes: [u8; 1134],
    len: usize,
}

impl Model for Sealed {
    ghost use Rattle.std.specs.Prelude.{List, ℕ, ◌≤◌, take};

    ghost Value = { List ℕ };

    ghost view = { λ s. take s.len s.bytes };

    ghost invariant = { λ s. s.len ≤ 1134 };
}

impl Sealed {
    pub(crate) fn as_slice(&self) -> &[u8]
        ensures { result.now ≡ self.now }
    {
        &self.bytes[..self.len]
    }
}

/// The bytes whose text is the prefix and these letters, or `None` where that is no text.
pub(crate) fn take_sealed(letters: &[u8]) -> Option<Sealed>
    requires { length letters.now ≤ 1500 }
    ensures { MatchOption result (bytes_in (prefix ++ letters.now) ≡ None) (λ sealed. bytes_in (prefix ++ letters.now) ≡ Some sealed) }
{
    let mut text = WholeText::new();
    text.put(PREFIX);
    text.put(letters);
    let mut bytes = [0; 1134];
    let len = take_into(text.as_slice(), &mut bytes)?;
    Some(Sealed { bytes, len })
}

/// A text of at most 1510 letters that takes no memory.
#[derive(Drop)]
pub(crate) struct WholeText {
    room: [u8; 1510],
    len: usize,
}

impl Model for WholeText {
    ghost use Rattle.std.specs.Prelude.{List, ℕ, ◌≤◌, take};

    ghost Value = { List ℕ };

    ghost view = { λ t. take t.len t.room };

    ghost invariant = { λ t. t.len ≤ 1510 };
}

impl WholeText {
    /// The text of sealed bytes.
    pub(crate) fn of(sealed: &[u8]) -> Self
        requires { length sealed.now ≤ 1132 }
        ensures { result ≡ text_of sealed.now }
    {
        let mut room = [0; 1510];
        let len = put_into(sealed, &mut room);
        WholeText { room, len }
    }

    fn new() -> Self
        ensures { result ≡ [] }
    {
        WholeText {
            room: [0; 1510],
            len: 0,
        }
    }

    pub(crate) fn as_slice(&self) -> &[u8]
        ensures { result.now ≡ self.now }
    {
        &self.room[..self.len]
    }

    /// Puts the letters behind the text.
    fn put(&mut self, letters: &[u8])
        requires { length self.old + length letters.now ≤ TEXT_ROOM }
        ensures { self.new ≡ self.old ++ letters.now }
    {
        let end = self.len + letters.len();
        self.room[self.len..end].copy_from_slice(letters);
        self.len = end;
    }
}
