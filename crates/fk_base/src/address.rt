ghost use Rattle.std.specs.Prelude.{◌≡◌, ◌+◌, ◌<◌, ◌≤◌, ◌^◌, [], ◌∷◌, ◌++◌, IfErr, IfOk, OnErr, OnOk, length};
ghost use Rattle.std.specs.Fmt.{decimal};
ghost use Rattle.fk_base.specs.declared.address.Ip4.{Ip4};
ghost use Rattle.fk_base.specs.Address.{IsIpText, ip_text};
ghost use Rattle.fk_base.specs.Shape.{IsLongestFront};
ghost use Rattle.fk_base.specs.Private.{IsDottedByte, IsPartAt, IsPartFault};

use crate::number_front::{last_number, number_front};
use crate::short_text::{SHORT_TEXT_ROOM, ShortText};
use crate::{Bytes, NoMemory, ShapeFault};

/// An address of version 4 of the Internet Protocol (RFC 791): its four bytes as one number, high byte first.
#[derive(Clone, Copy, Debug, PartialEq, Eq)]
pub struct Ip4(pub u32);

/// Reads an address, as `10.0.0.7`. No number has a zero in front.
pub fn read_ip(text: &[u8]) -> Result<Ip4, ShapeFault>
    ensures address { IfOk result (λ ip. text.now ≡ ip_text ip) }
    ensures every { (ip : Ip4) → ip.0 < 2 ^ 32 → text.now ≡ ip_text ip → result ≡ Ok ip }
    ensures place { IfErr result (λ fault. IsLongestFront IsIpText text.now fault.0) }
{
    let (first, second_at) = byte_before_dot(text, 0)?;
    let (second, third_at) = byte_before_dot(text, second_at)?;
    let (third, fourth_at) = byte_before_dot(text, third_at)?;
    let fourth = last_number(text, fourth_at, 0, 255)? as u8;
    Ok(Ip4(u32::from_be_bytes([first, second, third, fourth])))
}

/// Appends the address's one text.
pub fn put_ip(ip: Ip4, out: &mut Bytes) -> Result<(), NoMemory>
    ensures ok { OnOk result (out.new ≡ out.old ++ ip_text ip) }
    ensures err { OnErr result (out.new ≡ out.old) }
{
    let [first, second, third, fourth] = ip.0.to_be_bytes();
    let mut text = ShortText::new();
    put_digits(&mut text, fourth);
    text.put_byte(b'.');
    put_digits(&mut text, third);
    text.put_byte(b'.');
    put_digits(&mut text, second);
    text.put_byte(b'.');
    put_digits(&mut text, first);
    out.append(text.as_slice())
}

/// Puts the byte's one to three digits before the text.
fn put_digits(text: &mut ShortText, byte: u8)
    requires { length text.old + 3 ≤ SHORT_TEXT_ROOM }
    ensures text { text.new ≡ decimal byte ++ text.old }
    ensures room { length text.new ≤ length text.old + 3 }
{
    text.put_decimal(u64::from(byte));
}

/// The byte in decimal that the text has from a place on with a dot behind it, and the place past the dot.
fn byte_before_dot(text: &[u8], from: usize) -> Result<(u8, usize), ShapeFault>
    requires { from ≤ length text.now }
    ensures ok { IfOk result (λ b. (b.0 < 2 ^ 8) × IsPartAt (decimal b.0 ++ 46 ∷ []) text.now from b.1) }
    ensures err { IfErr result (λ fault. IsPartFault IsDottedByte text.now from fault.0) }
{
    let rest = &text[from..];
    match number_front(rest, 0, 255) {
        Some((value, len)) => {
            if len < rest.len() && rest[len] == b'.' {
                Ok((value as u8, from + len + 1))
            } else {
                Err(ShapeFault(from + len))
            }
        }
        None => Err(ShapeFault(from)),
    }
}
