ghost use Rattle.std.specs.Prelude.{◌≡◌, ◌≤◌, IfOk, IfSome, length, true};
ghost use Rattle.std.specs.Option.{option_map};
ghost use Rattle.fk_fields.specs.FieldText.{is_user};
ghost use Rattle.fk_values.specs.Given.{given_at, said_by};
ghost use Rattle.fk_values.specs.Settings.{read_of};
ghost use Rattle.fk_values.specs.Values.{hash_in, host_in, is_host, number_within, pairs_within};
ghost use Rattle.fk_conf.specs.RcTable.{allow_in, given_in};
ghost use Rattle.fk_conf.specs.ReadsRc.{IsRcGiven, key_of, spoofed_user};

use crate::RcStanza;
use crate::rc_name::{RcName, read_allow};
use fk_base::{Bytes, HashKind, Ip4, LONGEST_TIME, NoMemory, Pairs};
use fk_fields::is_user;
use fk_lines::Line;
use fk_values::{Given, KEY_LIMIT, is_host, read_hash_name, read_number, read_pairs, take_key_of};
use std::alloc::Global;

/// The stanza of this name whose lines set what is given.
pub(crate) fn stanza_of(
    alloc: Global,
    line: u32,
    name: &[u8],
    given: &Given<'_>,
) -> Result<RcStanza, NoMemory>
    requires least { 1 ≤ length name.now }
    requires most { length name.now ≤ 64 }
    ensures line { IfOk result (λ stanza. stanza.line ≡ line) }
    ensures name { IfOk result (λ stanza. stanza.name ≡ name.now) }
    ensures given { IfOk result (IsRcGiven (given_at given.now)) }
{
    Ok(RcStanza {
        line,
        name: Bytes::copy(alloc, name)?,
        server: server_of(alloc, RcName::SpaServer.line_in(given))?,
        port: port_of(RcName::SpaServerPort.line_in(given)),
        pairs: pairs_of(RcName::Access.line_in(given)),
        allow: allow_of(RcName::AllowIp.line_in(given)),
        key: key_of(alloc, RcName::Key.line_in(given), RcName::KeyBase64)?,
        mac_key: key_of(alloc, RcName::HmacKey.line_in(given), RcName::HmacKeyBase64)?,
        mac_kind: hash_of(RcName::HmacDigestType.line_in(given)),
        kind: hash_of(RcName::DigestType.line_in(given)),
        timeout: timeout_of(RcName::FwTimeout.line_in(given)),
        user: user_of(alloc, RcName::SpoofUser.line_in(given))?,
    })
}

fn server_of(alloc: Global, line: Option<Line<'_>>) -> Result<Option<Bytes>, NoMemory>
    ensures server { IfOk result (λ server. server ≡ read_of host_in (option_map said_by line.entry)) }
    ensures right { IfOk result (λ server. IfSome server (λ s. is_host s ≡ true)) }
{
    match line {
        Some(line) if is_host(line.value) => Ok(Some(Bytes::copy(alloc, line.value)?)),
        _ => Ok(None),
    }
}

fn user_of(alloc: Global, line: Option<Line<'_>>) -> Result<Option<Bytes>, NoMemory>
    ensures user { IfOk result (λ user. user ≡ read_of spoofed_user (option_map said_by line.entry)) }
    ensures right { IfOk result (λ user. IfSome user (λ u. is_user u ≡ true)) }
{
    match line {
        Some(line) if is_user(line.value) => Ok(Some(Bytes::copy(alloc, line.value)?)),
        _ => Ok(None),
    }
}

/// The key that a line gives, in base64 under this name.
fn key_of(
    alloc: Global,
    line: Option<Line<'_>>,
    base64_name: RcName,
) -> Result<Option<Bytes>, NoMemory>
    ensures key { IfOk result (λ key. key ≡ key_of base64_name (option_map said_by line.entry)) }
    ensures bounds { IfOk result (λ key. IfSome key (λ k. (1 ≤ length k) × (length k ≤ KEY_LIMIT))) }
{
    match line {
        Some(line) => take_key_of(alloc, line, base64_name.text()),
        None => Ok(None),
    }
}

fn port_of(line: Option<Line<'_>>) -> Option<u16>
    ensures port { result ≡ read_of (number_within 1 65535) (option_map said_by line.entry) }
    ensures least { IfSome result (λ port. 1 ≤ port) }
{
    let port = read_number(line?.value, 1, 65_535)?;
    Some(port as u16)
}

fn timeout_of(line: Option<Line<'_>>) -> Option<u32>
    ensures timeout { result ≡ read_of (number_within 1 LONGEST_TIME) (option_map said_by line.entry) }
    ensures within { IfSome result (λ timeout. (1 ≤ timeout) × (timeout ≤ LONGEST_TIME)) }
{
    let timeout = read_number(line?.value, 1, LONGEST_TIME)?;
    Some(timeout as u32)
}

fn pairs_of(line: Option<Line<'_>>) -> Option<Pairs>
    ensures { result ≡ read_of (pairs_within 16) (option_map said_by line.entry) }
{
    read_pairs(line?.value)
}

fn allow_of(line: Option<Line<'_>>) -> Option<Ip4>
    ensures { result ≡ read_of allow_in (option_map said_by line.entry) }
{
    read_allow(line?.value)
}

fn hash_of(line: Option<Line<'_>>) -> Option<HashKind>
    ensures { result ≡ read_of hash_in (option_map said_by line.entry) }
{
    read_hash_name(line?.value)
}
