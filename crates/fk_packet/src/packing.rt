ghost use Rattle.std.specs.Prelude.{◌≡◌, ◌≤◌, length, drop, IfOk, None};
ghost use Rattle.fk_fields.specs.Fields.{field_fault};
ghost use Rattle.fk_packet.specs.Packs.{Packs, datagram_of};

use crate::packet_shape::PREFIX;
use crate::sealed::WholeText;
use fk_base::{Bytes, Keys, NoMemory};
use fk_cbc::seal;
use fk_codec::encode;
use fk_fields::Fields;
use fk_mac::{MacBuf, mac};
use std::alloc::Global;

/// The datagram of checked fields under the keys and with the salt.
pub fn pack(alloc: Global, fields: &Fields, keys: &Keys, salt: [u8; 8]) -> Result<Bytes, NoMemory>
    requires { field_fault fields.now ≡ None }
    ensures packed { IfOk result (λ datagram. (packs : Packs keys.now fields.now datagram) × (packs.salt ≡ salt)) }
    ensures least { IfOk result (λ datagram. 140 ≤ length datagram) }
    ensures most { IfOk result (λ datagram. length datagram ≤ 1500) }
{
    let plain = encode(alloc, fields)?;
    let sealed = seal(alloc, keys.key.as_slice(), salt, plain.as_slice())?;
    let text = WholeText::of(sealed.as_slice());
    datagram_of(alloc, keys, text.as_slice())
}

/// The text without its first ten letters, and its HMAC's text behind it.
fn datagram_of(alloc: Global, keys: &Keys, text: &[u8]) -> Result<Bytes, NoMemory>
    requires { 10 ≤ length text.now }
    ensures { IfOk result (λ datagram. datagram ≡ datagram_of keys.now text.now) }
{
    let mut code = MacBuf::new();
    mac(keys.kind, keys.mac_key.as_slice(), &[], text, &mut code);
    let rest = behind_prefix(text);
    let mut datagram = Bytes::with_room(alloc, rest.len() + keys.kind.text_len())?;
    datagram.append(rest)?;
    code.put_text(&mut datagram)?;
    Ok(datagram)
}

fn behind_prefix(text: &[u8]) -> &[u8]
    requires { 10 ≤ length text.now }
    ensures { result.now ≡ drop 10 text.now }
{
    &text[PREFIX.len()..]
}
