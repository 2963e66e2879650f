ghost use Rattle.std.specs.Prelude.{◌≡◌, ◌++◌, [], ◌∷◌, OnOk, OnErr, codes};
ghost use Rattle.std.specs.List.{flat_map};
ghost use Rattle.fk_base.specs.Address.{ip_text};
ghost use Rattle.fk_base.specs.PairText.{pair_text, proto_name};
ghost use Rattle.fk_host.specs.Count.{HasCause};
ghost use Rattle.fk_host.specs.Stream.{Gives};
ghost use Rattle.fk_log.specs.Line.{number_text, words_text};
ghost use Rattle.fk_log.specs.Private.{Puts, desk, piece_text, text_of_pieces};
ghost use Rattle.fk_log.specs.Writing.{GivesPart};

use crate::piece::Piece;
use fk_base::{Failed, Ip4, Pair, Proto, Words};
use fk_host::{Sink, write_all};
use itoa::Buffer;
use std::marker::Model;

/// How many bytes of a line are gathered before they are written.
const DRAFT_ROOM: usize = 1024;

/// The bytes of a line that were not written yet, so that an ordinary line is one write.
#[derive(Drop)]
pub struct Draft {
    bytes: [u8; DRAFT_ROOM],
    used: usize,
}

impl Model for Draft {
    ghost use Rattle.std.specs.Prelude.{List, ℕ, ◌≤◌, take};

    ghost Value = { List ℕ };

    ghost view = { λ d. take d.used d.bytes };

    ghost invariant = { λ d. d.used ≤ 1024 };
}

impl Draft {
    pub fn new() -> Self
        ensures { result ≡ [] }
    {
        Draft {
            bytes: [0; DRAFT_ROOM],
            used: 0,
        }
    }

    /// Writes what is pending.
    pub fn finish<K: Sink>(&mut self, out: &mut K) -> Result<(), Failed>
        ensures given { OnOk result (Gives self.old (K.written out.old) (K.written out.new)) }
        ensures part { OnErr result (GivesPart self.old (K.written out.old) (K.written out.new)) }
        ensures empty { OnOk result (self.new ≡ []) }
        ensures cause { HasCause (K.faults out.old) (K.faults out.new) result }
    {
        write_all(out, &self.bytes[..self.used])?;
        self.used = 0;
        Ok(())
    }

    /// Puts the bytes behind those that are pending. Where they don't fit, those are written, and these too.
    pub fn put<K: Sink>(&mut self, piece: &[u8], out: &mut K) -> Result<(), Failed>
        ensures { Puts piece.now result
            (desk self.old (K.written out.old) (K.faults out.old)) (desk self.new (K.written out.new) (K.faults out.new)) }
    {
        if piece.len() > DRAFT_ROOM - self.used {
            self.finish(out)?;
            return write_all(out, piece);
        }
        let end = self.used + piece.len();
        self.bytes[self.used..end].copy_from_slice(piece);
        self.used = end;
        Ok(())
    }

    /// Puts the texts one behind the other.
    fn put_each<K: Sink>(&mut self, texts: &[&[u8]], out: &mut K) -> Result<(), Failed>
        ensures { Puts (flat_map (λ text. text.now) texts.now) result
            (desk self.old (K.written out.old) (K.faults out.old)) (desk self.new (K.written out.new) (K.faults out.new)) }
    {
        for text in texts {
            self.put(text, out)?;
        }
        Ok(())
    }

    fn put_number<K: Sink>(&mut self, value: u64, out: &mut K) -> Result<(), Failed>
        ensures { Puts (number_text value) result
            (desk self.old (K.written out.old) (K.faults out.old)) (desk self.new (K.written out.new) (K.faults out.new)) }
    {
        self.put(Buffer::new().format(value).as_bytes(), out)
    }

    fn put_address<K: Sink>(&mut self, ip: Ip4, out: &mut K) -> Result<(), Failed>
        ensures { Puts (ip_text ip) result
            (desk self.old (K.written out.old) (K.faults out.old)) (desk self.new (K.written out.new) (K.faults out.new)) }
    {
        let [first, second, third, fourth] = ip.0.to_be_bytes();
        let mut first_text = Buffer::new();
        let mut second_text = Buffer::new();
        let mut third_text = Buffer::new();
        let mut fourth_text = Buffer::new();
        let parts: [&[u8]; 7] = [
            first_text.format(first).as_bytes(),
            b".",
            second_text.format(second).as_bytes(),
            b".",
            third_text.format(third).as_bytes(),
            b".",
            fourth_text.format(fourth).as_bytes(),
        ];
        self.put_each(&parts, out)
    }

    fn put_port<K: Sink>(&mut self, pair: Pair, out: &mut K) -> Result<(), Failed>
        ensures { Puts (pair_text pair) result
            (desk self.old (K.written out.old) (K.faults out.old)) (desk self.new (K.written out.new) (K.faults out.new)) }
    {
        let mut port = Buffer::new();
        self.put_each(
            &[proto_text(pair.proto), port.format(pair.port).as_bytes()],
            out,
        )
    }

    /// Puts the words joined by one space.
    fn put_command<K: Sink>(&mut self, words: &Words, out: &mut K) -> Result<(), Failed>
        ensures { Puts (words_text words.now) result
            (desk self.old (K.written out.old) (K.faults out.old)) (desk self.new (K.written out.new) (K.faults out.new)) }
    {
        if words.count() == 0 {
            return Ok(());
        }
        self.put(words.get(0), out)?;
        for at in 1..words.count() {
            self.put_each(&[b" ", words.get(at)], out)?;
        }
        Ok(())
    }

    fn put_piece<K: Sink>(&mut self, piece: &Piece<'_>, out: &mut K) -> Result<(), Failed>
        ensures { Puts (piece_text piece.now) result
            (desk self.old (K.written out.old) (K.faults out.old)) (desk self.new (K.written out.new) (K.faults out.new)) }
    {
        match *piece {
            Piece::Text(text) => self.put(text, out),
            Piece::Number(value) => self.put_number(value, out),
            Piece::Address(ip) => self.put_address(ip, out),
            Piece::Port(pair) => self.put_port(pair, out),
            Piece::Command(words) => self.put_command(words, out),
        }
    }

    /// Puts the pieces one behind the other.
    pub fn put_pieces<K: Sink>(&mut self, pieces: &[Piece<'_>], out: &mut K) -> Result<(), Failed>
        ensures { Puts (text_of_pieces pieces.now) result
            (desk self.old (K.written out.old) (K.faults out.old)) (desk self.new (K.written out.new) (K.faults out.new)) }
    {
        for piece in pieces {
            self.put_piece(piece, out)?;
        }
        Ok(())
    }
}

/// The protocol's name and a slash.
fn proto_text(proto: Proto) -> &'static [u8]
    ensures { result.now ≡ proto_name proto ++ codes "/" }
{
    match proto {
        Proto::Tcp => b"tcp/",
        Proto::Udp => b"udp/",
    }
}
