ghost use Rattle.std.specs.Prelude.{◌≡◌, ◌≢◌, ◌⊎◌, ◌+◌, ◌-◌, ◌<◌, ◌≤◌, ◌++◌, false, length, take, drop, Err, IfOk, IsOk, IsSome, MatchResult, None, Ok, Some};
ghost use Rattle.fk_base.specs.HashKind.{text_len};
ghost use Rattle.fk_fields.specs.declared.fields.Fields.{Fields as PackedFields};
ghost use Rattle.fk_packet.specs.Opens.{blocks_in, blocks_under, is_authentic, opened_under, plain_in, unpacked};
ghost use Rattle.fk_packet.specs.Packs.{Packs};
ghost use Rattle.fk_packet.specs.Shape.{prefix, shape_fault};

use crate::PacketFault;
use crate::packet_shape::{PREFIX, shape};
use crate::sealed::take_sealed;
use fk_base::{Bytes, Steps};
use fk_cbc::open;
use fk_codec::decode;
use fk_fields::Fields;
use fk_mac::PreparedKeys;
use std::alloc::Global;
use std::sync::ledger::Ledger;

/// The fields that a datagram packs under the keys. Memory is wanting only where its shape and its HMAC are right, and behind the
/// cipher only for a packet that is right.
pub fn unpack<L: Ledger>(
    alloc: Global,
    datagram: &[u8],
    keys: &PreparedKeys,
    steps: &mut Steps<L>,
) -> Result<Fields, PacketFault>
    ensures packed { IfOk result (λ fields. Packs keys.now fields datagram.now) }
    ensures every { (fields : PackedFields) → Packs keys.now fields datagram.now
        → MatchResult result (λ f. f ≡ fields) (λ e. e ≡ PacketFault.NoMemory) }
    ensures fault { MatchResult result
        (λ fields. unpacked keys.now datagram.now ≡ Ok fields)
        (λ e. (unpacked keys.now datagram.now ≡ Err e)
        ⊎ ((e ≡ PacketFault.NoMemory) × (shape_fault datagram.now ≡ None) × (0 < blocks_under keys.now datagram.now))) }

    ensures shape_steps { IsSome (shape_fault datagram.now) → steps.new ≡ steps.old }
    ensures mac_steps { is_authentic keys.now datagram.now ≡ false → steps.new ≡ steps.old }
    ensures steps { shape_fault datagram.now ≡ None → result ≢ Err PacketFault.NoMemory
        → steps.new ≡ steps.old + blocks_under keys.now datagram.now }
    ensures memory_steps { result ≡ Err PacketFault.NoMemory
        → (steps.new ≡ steps.old) ⊎ ((steps.new ≡ steps.old + blocks_under keys.now datagram.now) × IsOk (unpacked keys.now datagram.now)) }
{
    shape(datagram)?;
    open_under(alloc, datagram, keys, steps)
}

/// The tests of a datagram under one pair of keys, and its fields: `unpack` behind the test of the shape.
pub fn open_under<L: Ledger>(
    alloc: Global,
    datagram: &[u8],
    keys: &PreparedKeys,
    steps: &mut Steps<L>,
) -> Result<Fields, PacketFault>
    requires { shape_fault datagram.now ≡ None }
    ensures fault { MatchResult result
        (λ fields. opened_under keys.now datagram.now ≡ Ok fields)
        (λ e. (opened_under keys.now datagram.now ≡ Err e)
        ⊎ ((e ≡ PacketFault.NoMemory) × (0 < blocks_under keys.now datagram.now))) }

    ensures mac_steps { is_authentic keys.now datagram.now ≡ false → steps.new ≡ steps.old }
    ensures steps { result ≢ Err PacketFault.NoMemory → steps.new ≡ steps.old + blocks_under keys.now datagram.now }
    ensures memory_steps { result ≡ Err PacketFault.NoMemory
        → (steps.new ≡ steps.old) ⊎ ((steps.new ≡ steps.old + blocks_under keys.now datagram.now) × IsOk (opened_under keys.now datagram.now)) }
{
    let (letters, mac) = split_mac(datagram, keys);
    if !keys.verify(PREFIX, letters, mac) {
        return Err(PacketFault::Mac);
    }
    let plain = open_letters(alloc, keys.keys().key.as_slice(), letters, steps)?;
    Ok(decode(alloc, plain.as_slice())?)
}

/// The letters of the sealed bytes, and those of the HMAC behind them.
fn split_mac<'a>(datagram: &'a [u8], keys: &PreparedKeys) -> (&'a [u8], &'a [u8])
    requires { text_len keys.now.kind ≤ length datagram.now }
    ensures letters { result.0.now ≡ take (length datagram.now - text_len keys.now.kind) datagram.now }
    ensures mac { result.1.now ≡ drop (length datagram.now - text_len keys.now.kind) datagram.now }
{
    datagram.split_at(datagram.len() - keys.keys().kind.text_len())
}

/// The plaintext that a key opens from the prefix and the letters behind it.
fn open_letters<L: Ledger>(
    alloc: Global,
    key: &[u8],
    letters: &[u8],
    steps: &mut Steps<L>,
) -> Result<Bytes, PacketFault>
    requires { length letters.now ≤ 1500 }
    ensures plain { MatchResult result
        (λ plain. plain_in key.now (prefix ++ letters.now) ≡ Some plain)
        (λ e. ((e ≡ PacketFault.Cipher) × (plain_in key.now (prefix ++ letters.now) ≡ None))
        ⊎ ((e ≡ PacketFault.NoMemory) × (0 < blocks_in (prefix ++ letters.now)))) }
    ensures steps { result ≢ Err PacketFault.NoMemory → steps.new ≡ steps.old + blocks_in (prefix ++ letters.now) }
    ensures memory_steps { result ≡ Err PacketFault.NoMemory → steps.new ≡ steps.old }
{
    let Some(sealed) = take_sealed(letters) else {
        return Err(PacketFault::Cipher);
    };
    Ok(open(alloc, key, sealed.as_slice(), steps)?)
}
