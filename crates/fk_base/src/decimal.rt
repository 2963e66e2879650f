ghost use Rattle.std.specs.Prelude.{◌≡◌, ℕ, ◌<◌, ◌≤◌, ◌+◌, ◌*◌, ◌^◌, ◌++◌, IfOk, MatchResult, OnErr, OnOk, SomeIff};
ghost use Rattle.std.specs.Fmt.{decimal};
ghost use Rattle.fk_base.specs.Decimal.{decimal_value, first_non_digit, first_num_fault};

use crate::short_text::ShortText;
use crate::{Bytes, GREATEST_MOMENT, Moment, NoMemory};

/// Why a text is no number, in the order in which it is tested.
#[derive(Clone, Copy, Debug, PartialEq, Eq)]
pub enum NumFault {
    Empty,
    /// The place of the first byte that is no digit, from 0.
    NotDigit(usize),
    LeadingZero,
    TooLarge,
}

/// Reads a number below 2^64.
pub fn read_decimal(text: &[u8]) -> Result<u64, NumFault>
    ensures number { IfOk result (λ n. text.now ≡ decimal n) }
    ensures every { (n : ℕ) → n < 2 ^ 64 → text.now ≡ decimal n → result ≡ Ok n }
    ensures fault { MatchResult result
        (λ _. first_num_fault u64.MAX text.now ≡ None)
        (λ fault. first_num_fault u64.MAX text.now ≡ Some fault) }
{
    read_number(text, u64::MAX)
}

/// Reads a number of seconds that is a moment.
pub fn read_moment(text: &[u8]) -> Result<Moment, NumFault>
    ensures number { IfOk result (λ n. text.now ≡ decimal n) }
    ensures every { (n : ℕ) → n ≤ GREATEST_MOMENT → text.now ≡ decimal n → result ≡ Ok n }
    ensures fault { MatchResult result
        (λ _. first_num_fault GREATEST_MOMENT text.now ≡ None)
        (λ fault. first_num_fault GREATEST_MOMENT text.now ≡ Some fault) }
{
    let value = read_number(text, GREATEST_MOMENT)?;
    Moment::new(value).ok_or(NumFault::TooLarge)
}

/// Appends the number's one text.
pub fn put_decimal(value: u64, out: &mut Bytes) -> Result<(), NoMemory>
    ensures ok { OnOk result (out.new ≡ out.old ++ decimal value) }
    ensures err { OnErr result (out.new ≡ out.old) }
{
    let mut text = ShortText::new();
    text.put_decimal(value);
    out.append(text.as_slice())
}

/// The number of at most `limit` that the text writes, or the first test that it fails.
pub(crate) fn read_number(text: &[u8], limit: u64) -> Result<u64, NumFault>
    ensures value { IfOk result (λ n. n ≡ decimal_value text.now) }
    ensures bound { IfOk result (λ n. n ≤ limit) }
    ensures fault { MatchResult result
        (λ _. first_num_fault limit text.now ≡ None)
        (λ fault. first_num_fault limit text.now ≡ Some fault) }
{
    if text.is_empty() {
        return Err(NumFault::Empty);
    }
    if let Some(place) = non_digit_place(text) {
        return Err(NumFault::NotDigit(place));
    }
    if text.len() > 1 && text[0] == b'0' {
        return Err(NumFault::LeadingZero);
    }
    value_within(text, limit).ok_or(NumFault::TooLarge)
}

/// The place of the first byte that is no digit.
fn non_digit_place(text: &[u8]) -> Option<usize>
    ensures { result ≡ first_non_digit text.now }
{
    text.iter().position(|byte| !byte.is_ascii_digit())
}

/// The number that the digits write, if it is at most `limit`.
fn value_within(digits: &[u8], limit: u64) -> Option<u64>
    requires { first_non_digit digits.now ≡ None }
    ensures { SomeIff result (decimal_value digits.now ≤ limit) (decimal_value digits.now) }
{
    let mut value: u64 = 0;
    for digit in digits {
        match push_digit(value, *digit - b'0', limit) {
            Some(next) => value = next,
            None => return None,
        }
    }
    Some(value)
}

/// The number with one more digit behind it, if it is at most `limit`.
pub fn push_digit(value: u64, digit: u8, limit: u64) -> Option<u64>
    ensures { SomeIff result (value * 10 + digit ≤ limit) (value * 10 + digit) }
{
    let next = value.checked_mul(10)?.checked_add(u64::from(digit))?;
    if next <= limit { Some(next) } else { None }
}
