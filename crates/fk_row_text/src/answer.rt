ghost use Rattle.std.specs.Prelude.{◌<◌};

use fk_base::Bytes;
use itoa::Buffer;
use std::alloc::Global;
use std::fmt::{Debug, Display};

/// An answer as it is compared and told: words, and texts in quotes, with single spaces between them.
#[derive(Drop)]
pub struct Answer {
    alloc: Global,
    line: Bytes,
    /// Memory was wanting for a part of it. It is told once for all parts, so that who adds one has nothing to pass on.
    is_cut: bool,
}

impl Answer {
    pub(crate) fn new(alloc: Global) -> Self {
        Answer {
            alloc,
            line: Bytes::new(alloc),
            is_cut: false,
        }
    }

    /// The line that is compared and told.
    pub(crate) fn line(&self) -> &[u8] {
        self.line.as_slice()
    }

    /// Whether memory was wanting for a part of it.
    pub(crate) fn is_cut(&self) -> bool {
        self.is_cut
    }

    /// Adds a word as it stands.
    pub fn word(&mut self, word: &[u8]) {
        self.separate();
        self.add(word);
    }

    /// Adds a value as it is printed.
    pub fn shown<T: Display>(&mut self, value: &T) {
        match format!(in self.alloc; "{value}") {
            Ok(text) => self.word(text.as_bytes()),
            Err(_) => self.is_cut = true,
        }
    }

    /// Adds a number in decimal.
    pub fn number(&mut self, number: u64) {
        let mut buffer = Buffer::new();
        self.word(buffer.format(number).as_bytes());
    }

    /// Adds `yes` or `no`.
    pub fn flag(&mut self, flag: bool) {
        self.word(if flag { b"yes" } else { b"no" });
    }

    /// Adds the name of a variant, with what it holds in parentheses.
    pub fn name<T: Debug>(&mut self, variant: &T) {
        match format!(in self.alloc; "{variant:?}") {
            Ok(name) => self.word(name.as_bytes()),
            Err(_) => self.is_cut = true,
        }
    }

    /// Adds a text in quotes.
    pub fn text(&mut self, text: &[u8]) {
        self.separate();
        self.add(b"\"");
        for byte in text {
            self.put_byte(*byte);
        }
        self.add(b"\"");
    }

    fn put_byte(&mut self, byte: u8) {
        match byte {
            b'\n' => self.add(b"\\n"),
            b'\r' => self.add(b"\\r"),
            b'\t' => self.add(b"\\t"),
            b'"' => self.add(b"\\\""),
            b'\\' => self.add(b"\\\\"),
            b' '..=b'~' => self.add(&[byte]),
            _ => self.add(&[b'\\', b'x', digit(byte / 16), digit(byte % 16)]),
        }
    }

    fn separate(&mut self) {
        if !self.line.as_slice().is_empty() {
            self.add(b" ");
        }
    }

    fn add(&mut self, bytes: &[u8]) {
        if self.line.append(bytes).is_err() {
            self.is_cut = true;
        }
    }
}

fn digit(value: u8) -> u8
    requires { value < 16 }
{
    if value < 10 {
        b'0' + value
    } else {
        b'a' + (value - 10)
    }
}
