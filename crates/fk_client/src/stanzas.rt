ghost use Rattle.std.specs.Prelude.{◌≡◌, ◌≤◌, IfSome, length, true};
ghost use Rattle.std.specs.Option.{option_and_then, option_copied};
ghost use Rattle.fk_fields.specs.FieldText.{is_user};
ghost use Rattle.fk_client.specs.Settle.{from_file, stanza_named};

use fk_base::{Bytes, HashKind, Ip4, Pairs};
use fk_conf::{RcFile, RcStanza};

/// The stanza whose values stand in for those that the named one lacks.
const DEFAULT_NAME: &[u8] = b"default";

/// The stanza of this name.
pub(crate) fn find_stanza<'a>(file: &'a RcFile, name: &[u8]) -> Option<&'a RcStanza>
    ensures { option_copied result ≡ stanza_named name.now file.now }
{
    file.as_slice()
        .iter()
        .find(|stanza| stanza.name.as_slice() == name)
}

pub(crate) fn server<'a>(file: &'a RcFile, name: &[u8]) -> Option<&'a Bytes>
    ensures { option_copied result ≡ from_file (λ stanza. stanza.server) file.now name.now }
{
    match server_in(find_stanza(file, name)) {
        Some(server) => Some(server),
        None => server_in(find_stanza(file, DEFAULT_NAME)),
    }
}

pub(crate) fn port(file: &RcFile, name: &[u8]) -> Option<u16>
    ensures { result ≡ from_file (λ stanza. stanza.port) file.now name.now }
{
    match port_in(find_stanza(file, name)) {
        Some(port) => Some(port),
        None => port_in(find_stanza(file, DEFAULT_NAME)),
    }
}

pub(crate) fn pairs<'a>(file: &'a RcFile, name: &[u8]) -> Option<&'a Pairs>
    ensures { option_copied result ≡ from_file (λ stanza. stanza.pairs) file.now name.now }
{
    match pairs_in(find_stanza(file, name)) {
        Some(pairs) => Some(pairs),
        None => pairs_in(find_stanza(file, DEFAULT_NAME)),
    }
}

pub(crate) fn allow(file: &RcFile, name: &[u8]) -> Option<Ip4>
    ensures { result ≡ from_file (λ stanza. stanza.allow) file.now name.now }
{
    match allow_in(find_stanza(file, name)) {
        Some(allow) => Some(allow),
        None => allow_in(find_stanza(file, DEFAULT_NAME)),
    }
}

pub(crate) fn key<'a>(file: &'a RcFile, name: &[u8]) -> Option<&'a Bytes>
    ensures key { option_copied result ≡ from_file (λ stanza. stanza.key) file.now name.now }
    ensures within { IfSome result (λ key. (1 ≤ length key.now) × (length key.now ≤ 128)) }
{
    match key_in(find_stanza(file, name)) {
        Some(key) => Some(key),
        None => key_in(find_stanza(file, DEFAULT_NAME)),
    }
}

pub(crate) fn mac_key<'a>(file: &'a RcFile, name: &[u8]) -> Option<&'a Bytes>
    ensures key { option_copied result ≡ from_file (λ stanza. stanza.mac_key) file.now name.now }
    ensures within { IfSome result (λ key. (1 ≤ length key.now) × (length key.now ≤ 128)) }
{
    match mac_key_in(find_stanza(file, name)) {
        Some(key) => Some(key),
        None => mac_key_in(find_stanza(file, DEFAULT_NAME)),
    }
}

pub(crate) fn mac_kind(file: &RcFile, name: &[u8]) -> Option<HashKind>
    ensures { result ≡ from_file (λ stanza. stanza.mac_kind) file.now name.now }
{
    match mac_kind_in(find_stanza(file, name)) {
        Some(kind) => Some(kind),
        None => mac_kind_in(find_stanza(file, DEFAULT_NAME)),
    }
}

pub(crate) fn kind(file: &RcFile, name: &[u8]) -> Option<HashKind>
    ensures { result ≡ from_file (λ stanza. stanza.kind) file.now name.now }
{
    match kind_in(find_stanza(file, name)) {
        Some(kind) => Some(kind),
        None => kind_in(find_stanza(file, DEFAULT_NAME)),
    }
}

pub(crate) fn timeout(file: &RcFile, name: &[u8]) -> Option<u32>
    ensures timeout { result ≡ from_file (λ stanza. stanza.timeout) file.now name.now }
    ensures within { IfSome result (λ seconds. (1 ≤ seconds) × (seconds ≤ 604800)) }
{
    match timeout_in(find_stanza(file, name)) {
        Some(timeout) => Some(timeout),
        None => timeout_in(find_stanza(file, DEFAULT_NAME)),
    }
}

pub(crate) fn user<'a>(file: &'a RcFile, name: &[u8]) -> Option<&'a Bytes>
    ensures user { option_copied result ≡ from_file (λ stanza. stanza.user) file.now name.now }
    ensures right { IfSome result (λ user. is_user user.now ≡ true) }
{
    match user_in(find_stanza(file, name)) {
        Some(user) => Some(user),
        None => user_in(find_stanza(file, DEFAULT_NAME)),
    }
}

fn server_in(stanza: Option<&RcStanza>) -> Option<&Bytes>
    ensures { option_copied result ≡ option_and_then (λ s. s.server) (option_copied stanza.entry) }
{
    stanza?.server.as_ref()
}

fn port_in(stanza: Option<&RcStanza>) -> Option<u16>
    ensures { result ≡ option_and_then (λ s. s.port) (option_copied stanza.entry) }
{
    stanza?.port
}

fn pairs_in(stanza: Option<&RcStanza>) -> Option<&Pairs>
    ensures { option_copied result ≡ option_and_then (λ s. s.pairs) (option_copied stanza.entry) }
{
    stanza?.pairs.as_ref()
}

fn allow_in(stanza: Option<&RcStanza>) -> Option<Ip4>
    ensures { result ≡ option_and_then (λ s. s.allow) (option_copied stanza.entry) }
{
    stanza?.allow
}

fn key_in(stanza: Option<&RcStanza>) -> Option<&Bytes>
    ensures key { option_copied result ≡ option_and_then (λ s. s.key) (option_copied stanza.entry) }
    ensures within { IfSome result (λ key. (1 ≤ length key.now) × (length key.now ≤ 128)) }
{
    stanza?.key.as_ref()
}

fn mac_key_in(stanza: Option<&RcStanza>) -> Option<&Bytes>
    ensures key { option_copied result ≡ option_and_then (λ s. s.mac_key) (option_copied stanza.entry) }
    ensures within { IfSome result (λ key. (1 ≤ length key.now) × (length key.now ≤ 128)) }
{
    stanza?.mac_key.as_ref()
}

fn mac_kind_in(stanza: Option<&RcStanza>) -> Option<HashKind>
    ensures { result ≡ option_and_then (λ s. s.mac_kind) (option_copied stanza.entry) }
{
    stanza?.mac_kind
}

fn kind_in(stanza: Option<&RcStanza>) -> Option<HashKind>
    ensures { result ≡ option_and_then (λ s. s.kind) (option_copied stanza.entry) }
{
    stanza?.kind
}

fn timeout_in(stanza: Option<&RcStanza>) -> Option<u32>
    ensures timeout { result ≡ option_and_then (λ s. s.timeout) (option_copied stanza.entry) }
    ensures within { IfSome result (λ seconds. (1 ≤ seconds) × (seconds ≤ 604800)) }
{
    stanza?.timeout
}

fn user_in(stanza: Option<&RcStanza>) -> Option<&Bytes>
    ensures user { option_copied result ≡ option_and_then (λ s. s.user) (option_copied stanza.entry) }
    ensures right { IfSome result (λ user. is_user user.now ≡ true) }
{
    stanza?.user.as_ref()
}
