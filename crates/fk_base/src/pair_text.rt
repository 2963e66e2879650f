ghost use Rattle.std.specs.Prelude.{◌≡◌, ◌<◌, ◌≤◌, ◌^◌, [], ◌++◌, codes, length, IfErr, IfOk, OnErr, OnOk};
ghost use Rattle.fk_base.specs.declared.pair.Pair.{Pair};
ghost use Rattle.fk_base.specs.PairText.{IsPairText, pair_text, proto_name};
ghost use Rattle.fk_base.specs.Shape.{IsLongestFront};
ghost use Rattle.fk_base.specs.Private.{IsCommonFront, IsPartAt, IsPartFault, IsProtoText};

use crate::number_front::last_number;
use crate::short_text::ShortText;
use crate::{Bytes, NoMemory, Pair, Proto, ShapeFault};

/// Reads a pair, as `tcp/22`. The port has no zero in front.
pub fn read_pair(text: &[u8]) -> Result<Pair, ShapeFault>
    ensures pair { IfOk result (λ pair. text.now ≡ pair_text pair) }
    ensures every { (pair : Pair) → pair.port < 2 ^ 16 → text.now ≡ pair_text pair → result ≡ Ok pair }
    ensures place { IfErr result (λ fault. IsLongestFront IsPairText text.now fault.0) }
{
    let (proto, port_at) = proto_before_slash(text)?;
    let port = last_number(text, port_at, 1, 65535)? as u16;
    Ok(Pair { proto, port })
}

/// Appends the pair's one text.
pub fn put_pair(pair: Pair, out: &mut Bytes) -> Result<(), NoMemory>
    ensures ok { OnOk result (out.new ≡ out.old ++ pair_text pair) }
    ensures err { OnErr result (out.new ≡ out.old) }
{
    let mut text = ShortText::new();
    put_pair_before(pair, &mut text);
    out.append(text.as_slice())
}

/// Puts the pair's text before an empty one.
pub(crate) fn put_pair_before(pair: Pair, text: &mut ShortText)
    requires { text.old ≡ [] }
    ensures text { text.new ≡ pair_text pair }
    ensures room { length text.new ≤ 9 }
{
    text.put_decimal(u64::from(pair.port));
    text.put_bytes(proto_bytes(pair.proto));
}

/// The protocol that the text begins with, and the place past the slash behind it.
fn proto_before_slash(text: &[u8]) -> Result<(Proto, usize), ShapeFault>
    ensures ok { IfOk result (λ p. IsPartAt (proto_name p.0 ++ codes "/") text.now 0 p.1) }
    ensures err { IfErr result (λ fault. IsPartFault IsProtoText text.now 0 fault.0) }
{
    let tcp = common_front(text, proto_bytes(Proto::Tcp));
    if tcp == 4 {
        return Ok((Proto::Tcp, 4));
    }
    let udp = common_front(text, proto_bytes(Proto::Udp));
    if udp == 4 {
        return Ok((Proto::Udp, 4));
    }
    Err(ShapeFault(tcp.max(udp)))
}

/// The protocol's name and a slash.
fn proto_bytes(proto: Proto) -> &'static [u8]
    ensures { result.now ≡ proto_name proto ++ codes "/" }
{
    match proto {
        Proto::Tcp => b"tcp/",
        Proto::Udp => b"udp/",
    }
}

/// How many bytes the text and the word have in common from their start on.
fn common_front(text: &[u8], word: &[u8]) -> usize
    ensures { IsCommonFront text.now word.now result }
{
    let mut len = 0;
    while len < text.len() && len < word.len() && text[len] == word[len] {
        len += 1;
    }
    len
}
