//! A datagram opened, and its fields told, or why it is refused.
ghost use Rattle.std.specs.Prelude.{◌≡◌, ◌⊎◌, ◌<◌, ◌++◌, Err, IfOk, MatchResult, Ok, OnOk};
ghost use Rattle.std.specs.Fmt.{decimal};
ghost use Rattle.fk_fields.specs.Fields.{IsFields};
ghost use Rattle.fk_packet.specs.Opens.{unpacked};
ghost use Rattle.fk_tool.specs.DecodedText.{decoded_line, opened_line, plain_words, refusal_words};

use fk_base::{Bytes, NoMemory, Steps, put_decimal};
use fk_codec::{DecodeFault, put_front};
use fk_fields::Fields;
use fk_mac::PreparedKeys;
use fk_packet::{PacketFault, unpack};
use std::alloc::Global;
use std::marker::Brand;
use std::sync::ledger::{Blank, Ledger as Counts};

/// The line of a datagram under the keys.
pub(crate) fn decoded_line(
    alloc: Global,
    keys: &PreparedKeys,
    datagram: &[u8],
) -> Result<Bytes, NoMemory>
    ensures { IfOk result (λ line. line ≡ decoded_line keys.now datagram.now) }
{
    match opened::<Brand>(alloc, keys, datagram, Blank::new(1)) {
        Ok(fields) => fields_line(alloc, &fields),
        Err(PacketFault::NoMemory) => Err(NoMemory),
        Err(fault) => refusal_line(alloc, fault),
    }
}

/// What the datagram opens to. The steps of the cipher are counted, and the count is of no use here.
fn opened<L: Counts>(
    alloc: Global,
    keys: &PreparedKeys,
    datagram: &[u8],
    blank: Blank,
) -> Result<Fields, PacketFault>
    requires name { blank.name ≡ L.name }
    requires parts { blank.parts ≡ L.parts }
    requires some { 0 < L.parts }
    ensures checked { IfOk result IsFields }
    ensures opened { MatchResult result
        (λ fields. unpacked keys.now datagram.now ≡ Ok fields)
        (λ fault. (unpacked keys.now datagram.now ≡ Err fault) ⊎ (fault ≡ PacketFault.NoMemory)) }
{
    let mut steps = Steps::<L>::new(blank);
    unpack(alloc, datagram, keys, &mut steps)
}

/// `ok`, and the plaintext without its digest.
fn fields_line(alloc: Global, fields: &Fields) -> Result<Bytes, NoMemory>
    requires { IsFields fields.now }
    ensures { IfOk result (λ line. line ≡ opened_line (Ok fields.now)) }
{
    let mut line = Bytes::copy(alloc, b"ok ")?;
    put_front(alloc, fields, &mut line)?;
    line.append(b"\n")?;
    Ok(line)
}

/// `no`, and why.
fn refusal_line(alloc: Global, fault: PacketFault) -> Result<Bytes, NoMemory>
    ensures { IfOk result (λ line. line ≡ opened_line (Err fault)) }
{
    let mut line = Bytes::copy(alloc, b"no ")?;
    put_refusal(fault, &mut line)?;
    line.append(b"\n")?;
    Ok(line)
}

/// The words of each refusal.
fn put_refusal(fault: PacketFault, out: &mut Bytes) -> Result<(), NoMemory>
    ensures { OnOk result (out.new ≡ out.old ++ refusal_words fault) }
{
    match fault {
        PacketFault::Size => out.append(b"size"),
        PacketFault::Alphabet(place) => put_numbered(b"alphabet ", place as u64, out),
        PacketFault::Prefix => out.append(b"prefix"),
        PacketFault::Mac => out.append(b"mac"),
        PacketFault::Cipher => out.append(b"cipher"),
        PacketFault::Plain(fault) => put_plain(fault, out),
        PacketFault::NoMemory => out.append(b""),
    }
}

fn put_plain(fault: DecodeFault, out: &mut Bytes) -> Result<(), NoMemory>
    ensures { OnOk result (out.new ≡ out.old ++ plain_words fault) }
{
    match fault {
        DecodeFault::Missing(part) => put_numbered(b"missing ", u64::from(part), out),
        DecodeFault::Bad(part) => put_numbered(b"bad ", u64::from(part), out),
        DecodeFault::KindOut(kind) => put_numbered(b"kind ", u64::from(kind), out),
        DecodeFault::DigestLength => out.append(b"digest-length"),
        DecodeFault::DigestDiffers => out.append(b"digest-differs"),
        DecodeFault::NoMemory => out.append(b""),
    }
}

/// A word and a number.
fn put_numbered(word: &[u8], number: u64, out: &mut Bytes) -> Result<(), NoMemory>
    ensures { OnOk result (out.new ≡ out.old ++ word.now ++ decimal number) }
{
    out.append(word)?;
    put_decimal(number, out)
}
