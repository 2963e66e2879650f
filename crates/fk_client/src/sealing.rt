//! What a stanza of the client's file gives for any packet: its keys and hashes, and for how long is asked.
ghost use Rattle.std.specs.Prelude.{MatchResult};
ghost use Rattle.fk_client.specs.Settle.{GivesSealing, IsSealingErr};

use crate::stanzas::{find_stanza, key, kind, mac_key, mac_kind, timeout};
use crate::{NeedFault, Sealing};
use fk_base::{Bytes, HashKind, Keys};
use fk_conf::RcFile;
use fk_mac::PreparedKeys;
use std::alloc::Global;

/// What the stanza of this name seals by, or what is needed first.
pub fn find_sealing(alloc: Global, file: &RcFile, name: &[u8]) -> Result<Sealing, NeedFault>
    ensures { MatchResult result (GivesSealing file.now name.now) (IsSealingErr file.now name.now) }
{
    if find_stanza(file, name).is_none() {
        return Err(NeedFault::NoStanza);
    }
    let Some(key) = key(file, name) else {
        return Err(NeedFault::NoKey);
    };
    let Some(mac_key) = mac_key(file, name) else {
        return Err(NeedFault::NoHmacKey);
    };
    let keys = Keys {
        key: Bytes::copy(alloc, key.as_slice())?,
        kind: mac_kind(file, name).unwrap_or(HashKind::Sha256),
        mac_key: Bytes::copy(alloc, mac_key.as_slice())?,
    };
    Ok(Sealing {
        keys: PreparedKeys::new(keys),
        kind: kind(file, name).unwrap_or(HashKind::Sha256),
        seconds: timeout(file, name),
    })
}
