ghost use Rattle.std.specs.Prelude.{◌≡◌, ◌==◌, IfErr, IfNone, IfOk, IfSome, position};
ghost use Rattle.fk_base.specs.declared.net.Net4.{Net4};
ghost use Rattle.fk_base.specs.Net.{IsNetText, SpellsNet};
ghost use Rattle.fk_base.specs.Private.{IsFirstAt, Lacks};
ghost use Rattle.fk_base.specs.Shape.{IsLongestFront};

use crate::number_front::last_number;
use crate::{Ip4, Net4, ShapeFault, read_ip};

/// Reads a net, as `10.0.0.0/8`, or as one address alone. No number has a zero in front. The bits of the address behind
/// the net's are cleared.
pub fn read_net(text: &[u8]) -> Result<Net4, ShapeFault>
    ensures net { IfOk result (SpellsNet text.now) }
    ensures every { (net : Net4) → SpellsNet text.now net → result ≡ Ok net }
    ensures place { IfErr result (λ fault. IsLongestFront IsNetText text.now fault.0) }
{
    match first_slash(text) {
        Some(slash) => read_slashed(text, slash),
        None => read_whole(text),
    }
}

/// Reads a net whose bits stand behind the slash at this place.
fn read_slashed(text: &[u8], slash: usize) -> Result<Net4, ShapeFault>
    requires { IsFirstAt 47 text.now slash }
    ensures net { IfOk result (SpellsNet text.now) }
    ensures every { (net : Net4) → SpellsNet text.now net → result ≡ Ok net }
    ensures place { IfErr result (λ fault. IsLongestFront IsNetText text.now fault.0) }
{
    let ip = read_ip(&text[..slash])?;
    let bits = last_number(text, slash + 1, 0, 32)? as u8;
    Ok(Net4::of(ip, bits))
}

/// Reads a net of one address.
fn read_whole(text: &[u8]) -> Result<Net4, ShapeFault>
    requires { Lacks 47 text.now }
    ensures net { IfOk result (SpellsNet text.now) }
    ensures every { (net : Net4) → SpellsNet text.now net → result ≡ Ok net }
    ensures place { IfErr result (λ fault. IsLongestFront IsNetText text.now fault.0) }
{
    let ip = read_ip(text)?;
    Ok(Net4::of(ip, 32))
}

fn first_slash(text: &[u8]) -> Option<usize>
    ensures first { IfSome result (IsFirstAt 47 text.now) }
    ensures none { IfNone result (Lacks 47 text.now) }
{
    find_slash(text)
}

fn find_slash(text: &[u8]) -> Option<usize>
    ensures { result ≡ position (λ byte. byte == 47) text.now }
{
    text.iter().position(|byte| *byte == b'/')
}
