ghost use Rattle.std.specs.Prelude.{◌≡◌, ◌++◌, IfOk, OnErr, OnOk};
ghost use Rattle.std.specs.List.{flat_map};
ghost use Rattle.fk_base.specs.CommandWords.{AreCommandWords};
ghost use Rattle.fk_base.specs.PairText.{proto_name};
ghost use Rattle.fk_subst.specs.Fill.{filled, piece_text, value_text};

use crate::word::Word;
use crate::{Piece, Template, Var};
use fk_base::{Bytes, Grant, NoMemory, Proto, Words, put_decimal, put_ip, put_pairs};
use std::alloc::Global;

/// The words of a template, each of its names replaced by the grant's value.
pub fn fill(alloc: Global, template: &Template, grant: &Grant) -> Result<Words, NoMemory>
    ensures filled { IfOk result (λ words. words ≡ filled template.now grant.now) }
    ensures bounds { IfOk result AreCommandWords }
{
    // what the bounds rest on: the types of the grant's values
    let _seconds = grant.seconds;
    let _pairs = grant.pairs.as_slice();

    let mut words = Words::new(alloc);
    let mut text = Bytes::new(alloc);
    for word in template.words() {
        text.clear();
        put_word(word, grant, &mut text)?;
        words.push(text.as_slice())?;
    }
    Ok(words)
}

fn put_word(word: &Word, grant: &Grant, out: &mut Bytes) -> Result<(), NoMemory>
    ensures { OnOk result (out.new ≡ out.old ++ flat_map (piece_text grant.now) word.now) }
{
    for piece in word.pieces() {
        match piece {
            Piece::Plain(bytes) => out.append(bytes.as_slice())?,
            Piece::Name(var) => put_value(*var, grant, out)?,
        }
    }
    Ok(())
}

fn put_value(var: Var, grant: &Grant, out: &mut Bytes) -> Result<(), NoMemory>
    ensures { OnOk result (out.new ≡ out.old ++ value_text grant.now var) }
{
    match var {
        Var::Ip => put_ip(grant.ip, out),
        Var::PktSrc => put_ip(grant.src, out),
        Var::Port => put_decimal(u64::from(grant.pairs.first().port), out),
        Var::Proto => out.append(proto_name(grant.pairs.first().proto)),
        Var::Timeout => put_decimal(u64::from(grant.seconds), out),
        Var::Access => put_pairs(&grant.pairs, out),
    }
}

fn proto_name(proto: Proto) -> &'static [u8]
    ensures { result.now ≡ proto_name proto }
{
    match proto {
        Proto::Tcp => b"tcp",
        Proto::Udp => b"udp",
    }
}
