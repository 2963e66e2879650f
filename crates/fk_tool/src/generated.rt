//! The line of one number: a packet that is made of it alone.
ghost use Rattle.std.specs.Prelude.{◌≡◌, ◌<◌, ◌/◌, ◌%◌, IfOk, map};
ghost use Rattle.fk_tool.specs.Generated.{AreGeneratedFields, AreGeneratedKeys, IsGeneratedLine, address_of, rand_of, units};

use crate::writing::line_of_parts;
use fk_base::{Bytes, HashKind, Ip4, Keys, NoMemory, Pair, Pairs, Proto, put_ip};
use fk_fields::{Ask, Fields, Rand};
use fk_packet::pack;
use itoa::Buffer;
use std::alloc::Global;

/// The moment of the first line.
const FIRST_MOMENT: u64 = 1_000_000;

/// The address of the first line, 10.0.0.1.
const FIRST_ADDRESS: u32 = 0x0a00_0001;

/// How many addresses there are before the first comes again.
const ADDRESSES: u64 = 65_536;

/// The keys of all packets.
pub(crate) fn generated_keys(alloc: Global) -> Result<Keys, NoMemory>
    ensures { IfOk result AreGeneratedKeys }
{
    let key = Bytes::copy(alloc, b"generated")?;
    let mac_key = Bytes::copy(alloc, b"generated-mac")?;
    Ok(Keys {
        key,
        kind: HashKind::Sha256,
        mac_key,
    })
}

/// The line of this number, under the keys of all packets.
pub(crate) fn generated_line(alloc: Global, keys: &Keys, number: u64) -> Result<Bytes, NoMemory>
    requires keys { AreGeneratedKeys keys.now }
    requires within { number < 100000 }
    ensures { IfOk result (IsGeneratedLine number) }
{
    let fields = generated_fields(alloc, number)?;
    let datagram = pack(alloc, &fields, keys, number.to_be_bytes())?;
    let mut address = Bytes::new(alloc);
    put_ip(generated_address(number), &mut address)?;
    let mut moment = Buffer::new();
    line_of_parts(
        alloc,
        &[
            moment.format(FIRST_MOMENT + number).as_bytes(),
            address.as_slice(),
            datagram.as_slice(),
        ],
    )
}

fn generated_fields(alloc: Global, number: u64) -> Result<Fields, NoMemory>
    requires { number < 100000 }
    ensures { IfOk result (AreGeneratedFields number) }
{
    let user = Bytes::copy(alloc, b"gen")?;
    let version = Bytes::copy(alloc, b"3.0.0")?;
    Ok(Fields {
        rand: generated_rand(number),
        user,
        stamp: FIRST_MOMENT + number,
        version,
        ask: Ask::Access {
            ip: generated_address(number),
            pairs: Pairs::one(Pair {
                proto: Proto::Tcp,
                port: 22,
            }),
        },
        kind: HashKind::Sha256,
    })
}

fn generated_rand(number: u64) -> Rand
    ensures { result ≡ rand_of number }
{
    Rand::from_bytes(generated_digits(number))
}

fn generated_address(number: u64) -> Ip4
    ensures { result ≡ address_of number }
{
    Ip4(FIRST_ADDRESS + (number % ADDRESSES) as u32)
}

/// The number's sixteen digits, as numbers, the highest first.
fn generated_digits(number: u64) -> [u8; 16]
    ensures { result ≡ map (λ unit. number / unit % 10) units }
{
    [
        digit(number, 1_000_000_000_000_000),
        digit(number, 100_000_000_000_000),
        digit(number, 10_000_000_000_000),
        digit(number, 1_000_000_000_000),
        digit(number, 100_000_000_000),
        digit(number, 10_000_000_000),
        digit(number, 1_000_000_000),
        digit(number, 100_000_000),
        digit(number, 10_000_000),
        digit(number, 1_000_000),
        digit(number, 100_000),
        digit(number, 10_000),
        digit(number, 1_000),
        digit(number, 100),
        digit(number, 10),
        digit(number, 1),
    ]
}

/// The digit of a number at a power of ten.
fn digit(number: u64, unit: u64) -> u8
    requires { 0 < unit }
    ensures { result ≡ number / unit % 10 }
{
    (number / unit % 10) as u8
}
