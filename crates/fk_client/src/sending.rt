//! One packet is made and sent, or shown.
ghost use Rattle.std.specs.Prelude.{◌≡◌, ◌∷◌, ◌++◌, [], MatchResult};
ghost use Rattle.std.specs.List.{flat_map};
ghost use Rattle.fk_log.specs.Printing.{sink_by};
ghost use Rattle.fk_client.specs.ClientText.{sent_line};
ghost use Rattle.fk_client.specs.Outside.{entropy_by, link_by, outside_by};
ghost use Rattle.fk_client.specs.Faults.{fault_of};
ghost use Rattle.fk_client.specs.Private.{DrawsInVain, DrawsPacket};
ghost use Rattle.fk_client.specs.Running.{RunsSend, SendsPacket};

use crate::printing::show_line;
use crate::reading::settings_by;
use crate::refusal::{Refusal, refuse};
use crate::{DRAWN_BYTES, Packet, Settings, packet};
use fk_base::{Failed, Moment, NoMemory, Status};
use fk_host::{Entropy, Files, Link, Sink};
use fk_words::SendWords;
use itoa::Buffer;
use std::alloc::Global;

/// Makes the packet that the words ask for, and sends or shows it. What it takes of memory it takes before.
pub(crate) fn run_send<F: Files, N: Entropy, L: Link, K: Sink>(
    alloc: Global,
    words: &SendWords,
    files: &mut F,
    entropy: &mut N,
    moment: Moment,
    link: &mut L,
    out: &mut K,
) -> Status
    ensures { let at = outside_by F.Files N.Entropy L.Link K.Sink in
        RunsSend words.now moment (at files.old entropy.old link.old out.old) (at files.new entropy.new link.new out.new) result }
{
    let settings = match settings_by(alloc, words, files) {
        Ok(settings) => settings,
        Err(refusal) => return refuse(refusal, out),
    };
    let packet = match draw_packet(alloc, settings, entropy, moment) {
        Ok(packet) => packet,
        Err(refusal) => return refuse(refusal, out),
    };
    if words.print {
        show_line(&[packet.datagram.as_slice()], out)
    } else {
        send(&packet, link, out)
    }
}

/// Draws the bytes of a packet, and makes it.
fn draw_packet<'a, N: Entropy>(
    alloc: Global,
    settings: Settings,
    entropy: &mut N,
    moment: Moment,
) -> Result<Packet, Refusal<'a>>
    ensures { let at = entropy_by N.Entropy in MatchResult result
        (λ packet. DrawsPacket settings moment packet (at entropy.old) (at entropy.new))
        (λ refusal. DrawsInVain DRAWN_BYTES (fault_of refusal) (at entropy.old) (at entropy.new)) }
{
    let mut drawn = [0; DRAWN_BYTES];
    if let Err(Failed) = entropy.fill(&mut drawn) {
        return Err(Refusal::Entropy);
    }
    match packet(alloc, settings, moment, &drawn) {
        Ok(packet) => Ok(packet),
        Err(NoMemory) => Err(Refusal::Common(fk_program::Refusal::NoMemory)),
    }
}

/// Sends the packet, and tells that it was sent.
fn send<L: Link, K: Sink>(packet: &Packet, link: &mut L, out: &mut K) -> Status
    ensures { let link_at = link_by L.Link in let at = sink_by K.Sink in
        SendsPacket packet.now (link_at link.old) (link_at link.new) (at out.old) (at out.new) result }
{
    let datagram = packet.datagram.as_slice();
    let server = packet.server.as_slice();
    if let Err(Failed) = link.send(server, packet.port, datagram) {
        return refuse(Refusal::Link, out);
    }
    let mut length = Buffer::new();
    let mut port = Buffer::new();
    let pieces = sent_line(
        length.format(datagram.len()).as_bytes(),
        server,
        port.format(packet.port).as_bytes(),
    );
    show_line(&pieces, out)
}

/// How long a datagram was, and where it went.
fn sent_line<'a>(length: &'a [u8], server: &'a [u8], port: &'a [u8]) -> [&'a [u8]; 6]
    ensures { flat_map (λ piece. piece.now) result ++ 10 ∷ [] ≡ sent_line length.now server.now port.now }
{
    [b"sent ", length, b" bytes to ", server, b" port ", port]
}
