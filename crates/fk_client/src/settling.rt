ghost use Rattle.std.specs.Prelude.{◌≡◌, ◌≤◌, IfOk, IfSome, MatchResult, codes, true, unwrap_or};
ghost use Rattle.std.specs.Option.{option_copied, option_map};
ghost use Rattle.fk_fields.specs.FieldText.{is_user};
ghost use Rattle.fk_fields.specs.Fields.{has_timeout};
ghost use Rattle.fk_client.specs.Settle.{IsNeedErr, GivesSettings, address_of, ask_of, from_file, pairs_of, port_of, seconds_of, server_of};

use crate::stanzas::{
    allow, find_stanza, key, kind, mac_key, mac_kind, pairs, port, server, timeout, user,
};
use crate::{NeedFault, Settings};
use fk_base::{Bytes, HashKind, Ip4, Keys, NoMemory, Pairs};
use fk_conf::RcFile;
use fk_fields::Ask;
use fk_words::SendWords;
use std::alloc::Global;

/// The port of a server where neither the words nor the file say one.
const DEFAULT_PORT: u16 = 62_201;

/// The settings that a client's file and its words give, or what is needed first.
pub fn settings(alloc: Global, file: &RcFile, words: &SendWords) -> Result<Settings, NeedFault>
    ensures { MatchResult result (GivesSettings file.now words.now) (IsNeedErr file.now words.now) }
{
    if find_stanza(file, words.name.as_slice()).is_none() {
        return Err(NeedFault::NoStanza);
    }
    let Some(server) = server_of(file, words) else {
        return Err(NeedFault::NoServer);
    };
    let Some(pairs) = pairs_of(file, words) else {
        return Err(NeedFault::NoAccess);
    };
    let Some(ip) = address_of(file, words) else {
        return Err(NeedFault::NoAllow);
    };
    let Some(key) = key(file, words.name.as_slice()) else {
        return Err(NeedFault::NoKey);
    };
    let Some(mac_key) = mac_key(file, words.name.as_slice()) else {
        return Err(NeedFault::NoHmacKey);
    };
    Ok(Settings {
        server: Bytes::copy(alloc, server)?,
        port: port_of(file, words),
        ask: ask_of(seconds_of(file, words), ip, pairs)?,
        keys: Keys {
            key: Bytes::copy(alloc, key.as_slice())?,
            kind: mac_kind(file, words.name.as_slice()).unwrap_or(HashKind::Sha256),
            mac_key: Bytes::copy(alloc, mac_key.as_slice())?,
        },
        kind: kind(file, words.name.as_slice()).unwrap_or(HashKind::Sha256),
        user: user_of(alloc, file, words)?,
    })
}

/// The server, which no datagram needs that is shown and not sent.
fn server_of<'a>(file: &'a RcFile, words: &'a SendWords) -> Option<&'a [u8]>
    ensures { option_map (λ text. text.now) result ≡ server_of file.now words.now }
{
    if let Some(given) = words.server.as_ref() {
        return Some(given.as_slice());
    }
    if let Some(given) = server(file, words.name.as_slice()) {
        return Some(given.as_slice());
    }
    if words.print { Some(b"") } else { None }
}

fn port_of(file: &RcFile, words: &SendWords) -> u16
    ensures { result ≡ port_of file.now words.now }
{
    match words.port {
        Some(given) => given,
        None => port(file, words.name.as_slice()).unwrap_or(DEFAULT_PORT),
    }
}

fn pairs_of<'a>(file: &'a RcFile, words: &'a SendWords) -> Option<&'a Pairs>
    ensures { option_copied result ≡ pairs_of file.now words.now }
{
    match words.pairs.as_ref() {
        Some(given) => Some(given),
        None => pairs(file, words.name.as_slice()),
    }
}

fn address_of(file: &RcFile, words: &SendWords) -> Option<Ip4>
    ensures { result ≡ address_of file.now words.now }
{
    match words.allow {
        Some(given) => Some(given),
        None => allow(file, words.name.as_slice()),
    }
}

fn seconds_of(file: &RcFile, words: &SendWords) -> Option<u32>
    ensures seconds { result ≡ seconds_of file.now words.now }
    ensures within { IfSome result (λ seconds. (1 ≤ seconds) × (seconds ≤ 604800)) }
{
    match words.seconds {
        Some(given) => Some(given),
        None => timeout(file, words.name.as_slice()),
    }
}

/// What is asked for. With a time the request is timed.
fn ask_of(seconds: Option<u32>, ip: Ip4, pairs: &Pairs) -> Result<Ask, NoMemory>
    requires { IfSome seconds (λ n. (1 ≤ n) × (n ≤ 604800)) }
    ensures ask { IfOk result (λ ask. ask ≡ ask_of seconds ip pairs.now) }
    ensures right { IfOk result (λ ask. has_timeout ask ≡ true) }
{
    let pairs = pairs.clone()?;
    match seconds {
        Some(seconds) => Ok(Ask::Timed { ip, pairs, seconds }),
        None => Ok(Ask::Access { ip, pairs }),
    }
}

fn user_of(alloc: Global, file: &RcFile, words: &SendWords) -> Result<Bytes, NoMemory>
    ensures user { IfOk result (λ user. user ≡ unwrap_or (from_file (λ stanza. stanza.user) file.now words.now.name) (codes "fwknop")) }
    ensures right { IfOk result (λ user. is_user user ≡ true) }
{
    match user(file, words.name.as_slice()) {
        Some(given) => Bytes::copy(alloc, given.as_slice()),
        None => Bytes::copy(alloc, b"fwknop"),
    }
}
