ghost use Rattle.std.specs.Prelude.{◌≡◌, ◌+◌, ◌%◌, IsTrue, SomeIff, map};
ghost use Rattle.std.specs.Char.{is_ascii_digit};
ghost use Rattle.std.specs.List.{list_all};
ghost use Rattle.fk_fields.specs.FieldText.{is_rand};

use std::marker::Model;

/// A random value of 16 digits, as they are written.
#[derive(Clone, Copy, Debug, PartialEq, Eq)]
pub struct Rand([u8; 16]);

impl Model for Rand {
    ghost use Rattle.std.specs.Prelude.{List, ℕ, IsTrue};
    ghost use Rattle.fk_fields.specs.FieldText.{is_rand};

    ghost Value = { List ℕ };

    ghost view = { λ r. r.0 };

    ghost invariant = { λ r. IsTrue (is_rand r.0) };

    ghost inverse = { λ text. record { 0 = text } };
}

impl Rand {
    /// `None` where the text is not 16 digits.
    pub fn read(text: &[u8]) -> Option<Self>
        ensures { SomeIff result (IsTrue (is_rand text.now)) text.now }
    {
        if !is_rand(text) {
            return None;
        }
        let mut digits = [0; 16];
        digits.copy_from_slice(text);
        Some(Rand(digits))
    }

    /// The digit of each byte modulo 10.
    pub fn from_bytes(bytes: [u8; 16]) -> Self
        ensures { result ≡ map (λ byte. 48 + byte % 10) bytes }
    {
        Rand(digits_of(bytes))
    }

    pub fn digits(&self) -> [u8; 16]
        ensures value { result ≡ self.now }
        ensures digits { IsTrue (is_rand result) }
    {
        self.0
    }
}

/// 16 digits.
fn is_rand(text: &[u8]) -> bool
    ensures { result ≡ is_rand text.now }
{
    text.len() == 16 && are_digits(text)
}

fn are_digits(text: &[u8]) -> bool
    ensures { result ≡ list_all is_ascii_digit text.now }
{
    text.iter().all(|byte| byte.is_ascii_digit())
}

/// The digit of each byte modulo 10.
fn digits_of(bytes: [u8; 16]) -> [u8; 16]
    ensures value { result ≡ map (λ byte. 48 + byte % 10) bytes }
    ensures digits { IsTrue (is_rand result) }
{
    let mut digits = [0; 16];
    for i in 0..16 {
        digits[i] = b'0' + bytes[i] % 10;
    }
    digits
}
