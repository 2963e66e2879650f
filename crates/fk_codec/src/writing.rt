ghost use Rattle.std.specs.Prelude.{◌≡◌, ◌≤◌, ◌∷◌, ◌++◌, IfOk, None, OnOk, length};
ghost use Rattle.std.specs.Fmt.{decimal};
ghost use Rattle.fk_base.specs.Pairs.{IsPairs};
ghost use Rattle.fk_text.specs.Text.{text_of};
ghost use Rattle.fk_mac.specs.Hmac.{hash_of};
ghost use Rattle.fk_fields.specs.Fields.{IsFields, asked_pairs, field_fault};
ghost use Rattle.fk_codec.specs.Private.{ask_text, request_text};
ghost use Rattle.fk_codec.specs.Spells.{Spells, front_of};

use fk_base::{Bytes, HashKind, Ip4, NoMemory, Pairs, put_decimal};
use fk_fields::{Ask, Fields, put_message};
use fk_mac::{MacBuf, hash};
use fk_text::put_into;
use std::alloc::Global;

/// The length of the longest plaintext.
const LONGEST_PLAINTEXT: usize = 464;

/// The one plaintext of checked fields.
pub fn encode(alloc: Global, fields: &Fields) -> Result<Bytes, NoMemory>
    requires { field_fault fields.now ≡ None }
    ensures { IfOk result (λ text. Spells fields.now text) }
{
    fields.keep_rules();
    let mut text = Bytes::with_room(alloc, LONGEST_PLAINTEXT)?;
    put_front(alloc, fields, &mut text)?;
    put_digest(fields.kind, &mut text)?;
    Ok(text)
}

/// Appends the digest of what stands there, behind a `:`.
fn put_digest(kind: HashKind, out: &mut Bytes) -> Result<(), NoMemory>
    ensures { OnOk result (out.new ≡ out.old ++ 58 ∷ text_of (hash_of kind out.old)) }
{
    let mut digest = MacBuf::new();
    hash(kind, out.as_slice(), &mut digest);
    out.append(b":")?;
    digest.put_text(out)
}

/// Appends all that stands before the digest and its `:`.
pub fn put_front(alloc: Global, fields: &Fields, out: &mut Bytes) -> Result<(), NoMemory>
    requires { IsFields fields.now }
    ensures { OnOk result (out.new ≡ out.old ++ front_of fields.now) }
{
    out.append(&fields.rand.digits())?;
    put_text(fields.user.as_slice(), out)?;
    put_number(fields.stamp, out)?;
    put_part(fields.version.as_slice(), out)?;
    put_ask(alloc, &fields.ask, out)
}

/// Appends the type, the message and the seconds of a timed request, each behind a `:`.
fn put_ask(alloc: Global, ask: &Ask, out: &mut Bytes) -> Result<(), NoMemory>
    requires { IsPairs (asked_pairs ask.now) }
    ensures { OnOk result (out.new ≡ out.old ++ ask_text ask.now) }
{
    match ask {
        Ask::Access { ip, pairs } => put_request(alloc, b"1", *ip, pairs, out),
        Ask::Timed { ip, pairs, seconds } => {
            put_request(alloc, b"3", *ip, pairs, out)?;
            put_number(u64::from(*seconds), out)
        }
    }
}

/// Appends the type of a request and its message, each behind a `:`.
fn put_request(
    alloc: Global,
    request_type: &[u8],
    ip: Ip4,
    pairs: &Pairs,
    out: &mut Bytes,
) -> Result<(), NoMemory>
    requires { IsPairs pairs.now }
    ensures { OnOk result (out.new ≡ out.old ++ request_text request_type.now ip pairs.now) }
{
    put_part(request_type, out)?;
    let message = put_message(alloc, ip, pairs)?;
    put_text(message.as_slice(), out)
}

/// Appends the text of bytes, behind a `:`.
fn put_text(bytes: &[u8], out: &mut Bytes) -> Result<(), NoMemory>
    requires { length bytes.now ≤ 192 }
    ensures { OnOk result (out.new ≡ out.old ++ 58 ∷ text_of bytes.now) }
{
    let mut letters = [0; 256];
    let len = put_into(bytes, &mut letters);
    put_part(&letters[..len], out)
}

fn put_number(value: u64, out: &mut Bytes) -> Result<(), NoMemory>
    ensures { OnOk result (out.new ≡ out.old ++ 58 ∷ decimal value) }
{
    out.append(b":")?;
    put_decimal(value, out)
}

fn put_part(part: &[u8], out: &mut Bytes) -> Result<(), NoMemory>
    ensures { OnOk result (out.new ≡ out.old ++ 58 ∷ part.now) }
{
    out.append(b":")?;
    out.append(part)
}
