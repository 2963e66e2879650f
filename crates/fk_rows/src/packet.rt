//! The calls of fk_packet: datagrams. The keys are three arguments: the key, the hash of the HMAC and the HMAC's key.
ghost use Rattle.std.specs.Prelude.{◌≡◌, ◌<◌, None};
ghost use Rattle.fk_packet.specs.Shape.{shape_fault};

use crate::packet_fields::{fields, put_opened};
use crate::reading::{bytes, keys};
use crate::showing::{put_check, put_outcome};
use fk_base::Steps;
use fk_fields::Fields;
use fk_mac::PreparedKeys;
use fk_packet::{PacketFault, open_under, pack, shape, unpack};
use fk_row_text::{Answer, Arguments, RowFault};
use std::alloc::Global;
use std::marker::Brand;
use std::sync::ledger::{Blank, Ledger};

/// Makes the call of this name, where it is one of these.
pub(crate) fn call(
    alloc: Global,
    name: &[u8],
    arguments: &mut Arguments<'_>,
    answer: &mut Answer,
) -> bool {
    match name {
        b"shape" => put_check(&shape(arguments.text()), answer),
        b"unpack" => call_unpack(alloc, arguments, answer),
        b"open_under" => call_open_under(alloc, arguments, answer),
        b"pack" => call_pack(alloc, arguments, answer),
        _ => return false,
    }
    true
}

/// `unpack KEYS DATAGRAM`.
fn call_unpack(alloc: Global, arguments: &mut Arguments<'_>, answer: &mut Answer) {
    let Some(keys) = keys(alloc, arguments) else {
        return;
    };
    let keys = PreparedKeys::new(keys);
    let datagram = arguments.text();
    put_opened(
        &unpacked::<Brand>(alloc, datagram, &keys, Blank::new(1)),
        answer,
    );
}

/// `open_under KEYS DATAGRAM`, of a datagram that has the shape of one.
fn call_open_under(alloc: Global, arguments: &mut Arguments<'_>, answer: &mut Answer) {
    let Some(keys) = keys(alloc, arguments) else {
        return;
    };
    let keys = PreparedKeys::new(keys);
    let datagram = arguments.text();
    if shape(datagram).is_err() {
        arguments.refuse(RowFault::Barred);
        return;
    }
    put_opened(
        &opened_under::<Brand>(alloc, datagram, &keys, Blank::new(1)),
        answer,
    );
}

/// `pack KEYS SALT FIELDS`.
fn call_pack(alloc: Global, arguments: &mut Arguments<'_>, answer: &mut Answer) {
    let Some(keys) = keys(alloc, arguments) else {
        return;
    };
    let salt = bytes(arguments);
    let Some(fields) = fields(alloc, arguments) else {
        return;
    };
    if fields.check().is_ok() {
        put_outcome(&pack(alloc, &fields, &keys, salt), answer);
    } else {
        arguments.refuse(RowFault::Barred);
    }
}

fn unpacked<L: Ledger>(
    alloc: Global,
    datagram: &[u8],
    keys: &PreparedKeys,
    blank: Blank,
) -> Result<Fields, PacketFault>
    requires name { blank.name ≡ L.name }
    requires parts { blank.parts ≡ L.parts }
    requires some { 0 < L.parts }
{
    let mut steps: Steps<L> = Steps::new(blank);
    unpack(alloc, datagram, keys, &mut steps)
}

fn opened_under<L: Ledger>(
    alloc: Global,
    datagram: &[u8],
    keys: &PreparedKeys,
    blank: Blank,
) -> Result<Fields, PacketFault>
    requires shape { shape_fault datagram.now ≡ None }
    requires name { blank.name ≡ L.name }
    requires parts { blank.parts ≡ L.parts }
    requires some { 0 < L.parts }
{
    let mut steps: Steps<L> = Steps::new(blank);
    open_under(alloc, datagram, keys, &mut steps)
}
