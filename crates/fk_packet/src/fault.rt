use crate::PacketShape;
use fk_cbc::OpenFault;
use fk_codec::DecodeFault;

/// Why a datagram is not opened, in the order in which it is tested.
#[derive(Clone, Copy, Debug, PartialEq, Eq)]
pub enum PacketFault {
    /// It has fewer than 140 or more than 1500 bytes.
    Size,
    /// The first place whose byte is none of the 64 letters of base64.
    Alphabet(usize),
    /// It begins with the ten letters that are left out.
    Prefix,
    /// Its end is not the HMAC of its text.
    Mac,
    /// Its text is no base64, or the key opens no plaintext from it.
    Cipher,
    /// The plaintext is none. Want of memory is no such fault.
    Plain(DecodeFault),
    NoMemory,
}

impl From<PacketShape> for PacketFault {
    ghost use Rattle.std.specs.Prelude.{◌≡◌};
    ghost use Rattle.fk_packet.specs.Opens.{shape_refusal};

    ghost from_gives = { λ reason fault. fault ≡ shape_refusal reason };

    fn from(shape: PacketShape) -> Self {
        match shape {
            PacketShape::Size => PacketFault::Size,
            PacketShape::Alphabet(place) => PacketFault::Alphabet(place),
            PacketShape::Prefix => PacketFault::Prefix,
        }
    }
}

impl From<OpenFault> for PacketFault {
    ghost use Rattle.std.specs.Prelude.{◌≡◌};
    ghost use Rattle.fk_packet.specs.Private.{open_refusal};

    ghost from_gives = { λ reason fault. fault ≡ open_refusal reason };

    fn from(fault: OpenFault) -> Self {
        match fault {
            OpenFault::NotSalted | OpenFault::BadLength | OpenFault::BadPadding =>
                PacketFault::Cipher,
            OpenFault::NoMemory => PacketFault::NoMemory,
        }
    }
}

impl From<DecodeFault> for PacketFault {
    ghost use Rattle.std.specs.Prelude.{◌≡◌};
    ghost use Rattle.fk_packet.specs.Private.{decode_refusal};

    ghost from_gives = { λ reason fault. fault ≡ decode_refusal reason };

    fn from(fault: DecodeFault) -> Self {
        match fault {
            DecodeFault::NoMemory => PacketFault::NoMemory,
            other => PacketFault::Plain(other),
        }
    }
}
