ghost use Rattle.std.specs.Prelude.{◌≡◌, ◌≤◌, [], ◌++◌, length, OnErr, OnOk};
ghost use Rattle.fk_text.specs.Text.{text_of};

use fk_base::{Bytes, NoMemory};
use fk_text::put_into;
use std::marker::Model;

/// A hash or a MAC: up to 64 bytes, the length of a SHA-512.
#[derive(Drop)]
pub struct MacBuf {
    bytes: [u8; 64],
    len: usize,
}

impl Model for MacBuf {
    ghost use Rattle.std.specs.Prelude.{List, ℕ, ◌≤◌, take};

    ghost Value = { List ℕ };

    ghost view = { λ b. take b.len b.bytes };

    ghost invariant = { λ b. b.len ≤ 64 };
}

impl MacBuf {
    pub fn new() -> Self
        ensures { result ≡ [] }
    {
        MacBuf {
            bytes: [0; 64],
            len: 0,
        }
    }

    pub fn as_slice(&self) -> &[u8]
        ensures value { result.now ≡ self.now }
        ensures short { length result.now ≤ 64 }
    {
        &self.bytes[..self.len]
    }

    /// Appends these bytes as unpadded base64.
    pub fn put_text(&self, out: &mut Bytes) -> Result<(), NoMemory>
        ensures ok { OnOk result (out.new ≡ out.old ++ text_of self.now) }
        ensures err { OnErr result (out.new ≡ out.old) }
    {
        let mut letters = [0; 86];
        let len = put_into(self.as_slice(), &mut letters);
        out.append(&letters[..len])
    }

    pub(crate) fn copy_from(&mut self, bytes: &[u8])
        requires { length bytes.now ≤ 64 }
        ensures { self.new ≡ bytes.now }
    {
        self.bytes[..bytes.len()].copy_from_slice(bytes);
        self.len = bytes.len();
    }
}
