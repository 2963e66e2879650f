ghost use Rattle.std.specs.Prelude.{◌≡◌, ◌+◌, ◌<◌, ◌≤◌, [], ◌∷◌, ◌++◌, length};
ghost use Rattle.std.specs.Fmt.{decimal};

use std::marker::Model;

/// The length of the greatest number below 2^64, in digits.
pub const SHORT_TEXT_ROOM: usize = 20;

/// A text of at most 20 bytes, written from its end to its start, that takes no memory.
#[derive(Drop)]
pub struct ShortText {
    room: [u8; 20],
    start: usize,
}

impl Model for ShortText {
    ghost use Rattle.std.specs.Prelude.{List, ℕ, ◌≤◌, drop};

    ghost Value = { List ℕ };

    ghost view = { λ t. drop t.start t.room };

    ghost invariant = { λ t. t.start ≤ 20 };
}

impl ShortText {
    pub fn new() -> Self
        ensures { result ≡ [] }
    {
        ShortText {
            room: [0; 20],
            start: 20,
        }
    }

    pub fn as_slice(&self) -> &[u8]
        ensures { result.now ≡ self.now }
    {
        &self.room[self.start..]
    }

    /// Puts the byte before the text.
    pub fn put_byte(&mut self, byte: u8)
        requires { length self.old < SHORT_TEXT_ROOM }
        ensures { self.new ≡ byte ∷ self.old }
    {
        self.start -= 1;
        self.room[self.start] = byte;
    }

    /// Puts the bytes before the text.
    pub fn put_bytes(&mut self, bytes: &[u8])
        requires { length bytes.now + length self.old ≤ SHORT_TEXT_ROOM }
        ensures { self.new ≡ bytes.now ++ self.old }
    {
        let end = self.start;
        self.start -= bytes.len();
        self.room[self.start..end].copy_from_slice(bytes);
    }

    /// Puts the number's digits before the text.
    pub fn put_decimal(&mut self, value: u64)
        requires { length (decimal value) + length self.old ≤ SHORT_TEXT_ROOM }
        ensures { self.new ≡ decimal value ++ self.old }
    {
        let mut rest = value;
        while rest >= 10 {
            self.put_byte(b'0' + (rest % 10) as u8);
            rest /= 10;
        }
        self.put_byte(b'0' + rest as u8);
    }
}
