//! The calls of fk_client below its program: what a client's file and words settle, and the packet that is made of it.
use crate::conf::good_client_file;
use crate::packet_fields::put_ask;
use crate::reading::{bytes, moment};
use crate::words::send_words;
use fk_base::NoMemory;
use fk_client::{NeedFault, Packet, Settings, packet, settings};
use fk_row_text::{Answer, Arguments, RowFault};
use std::alloc::Global;

/// Makes the call of this name, where it is one of these.
pub(crate) fn call(
    alloc: Global,
    name: &[u8],
    arguments: &mut Arguments<'_>,
    answer: &mut Answer,
) -> bool {
    match name {
        b"settings" => call_settings(alloc, arguments, answer),
        b"packet" => call_packet(alloc, arguments, answer),
        _ => return false,
    }
    true
}

fn call_settings(alloc: Global, arguments: &mut Arguments<'_>, answer: &mut Answer) {
    let file = arguments.text();
    match settled(alloc, file, arguments) {
        Some(Ok(found)) => put_settings(&found, answer),
        Some(Err(fault)) => answer.name(&fault),
        None => {}
    }
}

/// What a client's file and the words that are left settle.
fn settled(
    alloc: Global,
    file: &[u8],
    arguments: &mut Arguments<'_>,
) -> Option<Result<Settings, NeedFault>> {
    let file = good_client_file(alloc, file, arguments)?;
    let words = send_words(alloc, arguments)?;
    Some(settings(alloc, &file, &words))
}

/// `packet FILE MOMENT DRAWN WORD ..`: the server, its port and the datagram, with the 24 bytes that are drawn.
fn call_packet(alloc: Global, arguments: &mut Arguments<'_>, answer: &mut Answer) {
    let file = arguments.text();
    let moment = moment(arguments);
    let drawn = bytes(arguments);
    let (Some(Ok(found)), Some(moment)) = (settled(alloc, file, arguments), moment) else {
        arguments.refuse(RowFault::Barred);
        return;
    };
    put_packet(&packet(alloc, found, moment, &drawn), answer);
}

fn put_packet(made: &Result<Packet, NoMemory>, answer: &mut Answer) {
    match made {
        Ok(packet) => {
            answer.text(packet.server.as_slice());
            answer.number(u64::from(packet.port));
            answer.text(packet.datagram.as_slice());
        }
        Err(fault) => answer.name(fault),
    }
}

fn put_settings(found: &Settings, answer: &mut Answer) {
    answer.text(found.server.as_slice());
    answer.number(u64::from(found.port));
    answer.word(b"user");
    answer.text(found.user.as_slice());
    answer.word(b"key");
    answer.text(found.keys.key.as_slice());
    answer.word(b"hmac");
    answer.name(&found.keys.kind);
    answer.text(found.keys.mac_key.as_slice());
    answer.word(b"digest");
    answer.name(&found.kind);
    put_ask(&found.ask, answer);
}
