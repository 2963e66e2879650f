ghost use Rattle.std.specs.Prelude.{◌≡◌, ◌+◌, ◌≤◌};
ghost use Rattle.fk_packet.specs.Opens.{blocks_under};
ghost use Rattle.fk_packet.specs.Shape.{shape_fault};
ghost use Rattle.fk_admit.specs.Private.{IsOpening, fault_opening, plain_opening};

use crate::Refusal;
use fk_base::Steps;
use fk_codec::DecodeFault;
use fk_fields::Fields;
use fk_mac::PreparedKeys;
use fk_packet::{PacketFault, open_under};
use std::alloc::Global;
use std::sync::ledger::Ledger;

/// What a datagram is to one pair of keys.
#[derive(Drop)]
pub(crate) enum Opening {
    /// They open it to these fields.
    Opened(Fields),
    /// They open a plaintext of a type that is not served.
    OtherType,
    /// Its HMAC is right, and this fails.
    Failed(Refusal),
    /// Its HMAC is another.
    OtherHmac,
    NoMemory,
}

/// What a datagram of the right shape is to these keys.
pub(crate) fn try_keys<L: Ledger>(
    alloc: Global,
    datagram: &[u8],
    keys: &PreparedKeys,
    steps: &mut Steps<L>,
) -> Opening
    requires { shape_fault datagram.now ≡ None }
    ensures opening { IsOpening keys.now datagram.now result }
    ensures least_steps { steps.old ≤ steps.new }
    ensures most_steps { steps.new ≤ steps.old + blocks_under keys.now datagram.now }
{
    match open_under(alloc, datagram, keys, steps) {
        Ok(fields) => Opening::Opened(fields),
        Err(fault) => fault_opening(fault),
    }
}

fn fault_opening(fault: PacketFault) -> Opening
    ensures { result ≡ fault_opening fault }
{
    match fault {
        PacketFault::Cipher => Opening::Failed(Refusal::Cipher),
        PacketFault::Plain(why) => plain_opening(why),
        PacketFault::NoMemory => Opening::NoMemory,
        PacketFault::Mac | PacketFault::Size | PacketFault::Alphabet(_) | PacketFault::Prefix => {
            Opening::OtherHmac
        }
    }
}

fn plain_opening(why: DecodeFault) -> Opening
    ensures { result ≡ plain_opening why }
{
    match why {
        DecodeFault::KindOut(_) => Opening::OtherType,
        _ => Opening::Failed(Refusal::Plain),
    }
}
