ghost use Rattle.std.specs.Prelude.{◌≤◌, length, IfOk};

use crate::RowFault;

/// What is left of a row while it is read.
#[derive(Drop)]
pub(crate) struct Scanner<'a> {
    rest: &'a [u8],
}

impl<'a> Scanner<'a> {
    pub(crate) fn new(row: &'a [u8]) -> Self {
        Scanner { rest: row }
    }

    /// How many bytes are left.
    pub(crate) fn len(&self) -> usize {
        self.rest.len()
    }

    /// Takes the next byte.
    pub(crate) fn take(&mut self) -> Option<u8> {
        let (first, rest) = self.rest.split_first()?;
        self.rest = rest;
        Some(*first)
    }

    /// Whether these bytes come next.
    pub(crate) fn begins(&self, bytes: &[u8]) -> bool {
        self.rest.starts_with(bytes)
    }

    /// Takes these bytes where they come next.
    pub(crate) fn takes(&mut self, bytes: &[u8]) -> bool {
        match self.rest.strip_prefix(bytes) {
            Some(rest) => {
                self.rest = rest;
                true
            }
            None => false,
        }
    }

    /// Takes this sign where it comes next and stands alone.
    pub(crate) fn takes_sign(&mut self, sign: u8) -> bool {
        match self.rest {
            [first, rest @ ..] if *first == sign && begins_with_gap(rest) => {
                self.rest = rest;
                true
            }
            _ => false,
        }
    }

    /// Takes the spaces and line feeds that come next.
    pub(crate) fn skip_blanks(&mut self) {
        let _spaces = self.take_before(End::NoSpace);
    }

    /// Whether the next byte is a blank or nothing is left.
    pub(crate) fn is_at_gap(&self) -> bool {
        begins_with_gap(self.rest)
    }

    /// Takes what stands before the next blank.
    pub(crate) fn take_word(&mut self) -> &'a [u8] {
        self.take_before(End::Space)
    }

    /// Takes what stands before the end of the line.
    pub(crate) fn take_line(&mut self) -> &'a [u8] {
        self.take_before(End::LineFeed)
    }

    /// Takes the letters, digits and low lines that come next.
    pub(crate) fn take_name(&mut self) -> &'a [u8] {
        self.take_before(End::NoNameByte)
    }

    /// Takes the digits that come next.
    pub(crate) fn take_number(&mut self) -> Result<usize, RowFault> {
        let number = number_of(self.take_before(End::NoDigit), usize::MAX as u64)?;
        Ok(number as usize)
    }

    /// Takes the bytes before this end, or all where it doesn't come.
    fn take_before(&mut self, end: End) -> &'a [u8] {
        let len = len_before(self.rest, end);
        let taken = &self.rest[..len];
        self.rest = &self.rest[len..];
        taken
    }
}

/// The byte that ends a part of a row.
#[derive(Clone, Copy)]
enum End {
    Space,
    NoSpace,
    LineFeed,
    NoNameByte,
    NoDigit,
}

impl End {
    fn is_at(self, byte: u8) -> bool {
        match self {
            End::Space => is_blank(byte),
            End::NoSpace => !is_blank(byte),
            End::LineFeed => byte == b'\n',
            End::NoNameByte => !is_name_byte(byte),
            End::NoDigit => !byte.is_ascii_digit(),
        }
    }
}

/// How many bytes stand before this end.
fn len_before(text: &[u8], end: End) -> usize
    ensures { result ≤ length text.now }
{
    for (at, byte) in text.iter().enumerate() {
        if end.is_at(*byte) {
            return at;
        }
    }
    text.len()
}

/// Whether a blank comes first or there is nothing.
fn begins_with_gap(text: &[u8]) -> bool {
    match text.first() {
        Some(byte) => is_blank(*byte),
        None => true,
    }
}

fn is_blank(byte: u8) -> bool {
    byte == b' ' || byte == b'\n'
}

fn is_name_byte(byte: u8) -> bool {
    byte.is_ascii_alphanumeric() || byte == b'_'
}

/// The number whose digits these are, up to the greatest that serves.
pub(crate) fn number_of(digits: &[u8], most: u64) -> Result<u64, RowFault>
    ensures { IfOk result (λ number. number ≤ most) }
{
    if digits.is_empty() {
        return Err(RowFault::NoNumber);
    }
    let mut number = 0u64;
    for digit in digits {
        let Some(next) = with_digit(number, *digit) else {
            return Err(RowFault::NoNumber);
        };
        number = next;
    }
    if number <= most {
        Ok(number)
    } else {
        Err(RowFault::NoNumber)
    }
}

fn with_digit(number: u64, digit: u8) -> Option<u64> {
    if !digit.is_ascii_digit() {
        return None;
    }
    number.checked_mul(10)?.checked_add(u64::from(digit - b'0'))
}
