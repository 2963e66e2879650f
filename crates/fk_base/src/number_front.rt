ghost use Rattle.std.specs.Prelude.{◌≡◌, ◌+◌, ◌-◌, ◌*◌, ◌<◌, ◌≤◌, IfErr, IfNone, IfOk, IfSome, SomeIff, drop, length};
ghost use Rattle.std.specs.Fmt.{decimal};
ghost use Rattle.std.specs.Int.{IsInRange};
ghost use Rattle.fk_base.specs.Shape.{IsLongestFront};
ghost use Rattle.fk_base.specs.Private.{IsNumberFront, IsNumberText, IsRestFault};

use crate::ShapeFault;
use crate::decimal::push_digit;

/// The number from `least` to `most` that the text is from a place on.
pub fn last_number(text: &[u8], from: usize, least: u64, most: u64) -> Result<u64, ShapeFault>
    requires within { from ≤ length text.now }
    requires low { least ≤ 1 }
    requires high { 9 ≤ most }
    ensures ok { IfOk result (λ n. (least ≤ n) × (n ≤ most) × (drop from text.now ≡ decimal n)) }
    ensures err { IfErr result (λ fault. IsRestFault (IsNumberText least most) text.now from fault.0) }
{
    let rest = &text[from..];
    match number_front(rest, least, most) {
        Some((value, len)) => {
            if len == rest.len() {
                Ok(value)
            } else {
                Err(ShapeFault(from + len))
            }
        }
        None => Err(ShapeFault(from)),
    }
}

/// The number from `least` to `most` that the text begins with, and its length, where it is as long as can be.
pub fn number_front(text: &[u8], least: u64, most: u64) -> Option<(u64, usize)>
    requires low { least ≤ 1 }
    requires high { 9 ≤ most }
    ensures some { IfSome result (λ n. IsNumberFront least most text.now n.0 n.1) }
    ensures none { IfNone result (IsLongestFront (IsNumberText least most) text.now 0) }
{
    if text.is_empty() {
        return None;
    }
    let Some(mut value) = first_number(text[0], least) else {
        return None;
    };
    let mut len = 1;
    while len < text.len() {
        match longer_number(value, text[len], most) {
            Some(next) => value = next,
            None => return Some((value, len)),
        }
        len += 1;
    }
    Some((value, len))
}

/// The number of one digit.
fn first_number(byte: u8, least: u64) -> Option<u64>
    ensures { SomeIff result (IsInRange 48 57 byte × (least ≤ byte - 48)) (byte - 48) }
{
    if byte.is_ascii_digit() && u64::from(byte - b'0') >= least {
        Some(u64::from(byte - b'0'))
    } else {
        None
    }
}

/// The number with one more digit behind it.
fn longer_number(value: u64, byte: u8, most: u64) -> Option<u64>
    ensures { SomeIff result
        ((0 < value) × IsInRange 48 57 byte × (value * 10 + (byte - 48) ≤ most))
        (value * 10 + (byte - 48)) }
{
    if value == 0 || !byte.is_ascii_digit() {
        return None;
    }
    push_digit(value, byte - b'0', most)
}
