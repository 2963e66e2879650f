//! A packet that is made, opened and refused again and again.
ghost use Rattle.std.specs.Prelude.{◌≡◌, ◌<◌, IfOk, None};
ghost use Rattle.fk_fields.specs.Fields.{field_fault};
ghost use Rattle.fk_packet.specs.Packs.{Packs};

use fk_base::{Bytes, HashKind, Keys, NoMemory, Steps};
use fk_fields::Fields;
use fk_mac::PreparedKeys;
use fk_packet::{PacketFault, pack, unpack};
use std::alloc::Global;
use std::sync::ledger::{Blank, Ledger};

/// The packet of the worked example in `docs/packet.md`, 204 bytes.
pub const DATAGRAM: &[u8] =
    b"8AAQIDBAUGB/6Y9MR8+u06nESdms6YKKxYJsUNfSMMBA2K+Oehf3k9GjWrJjbvDzHo6zIvF9t3/4On3wOSQ0vg3XkN2NBV+AQmHSwrnaNm/7SKg3bjpo8C71lL4IzWHfc3CL/dncz/ai+26HIEhFbe5gh7JT6eU9sZupT2lcQkcOZ19GWSa9Ou3oPWDnh8xaLUv0v4mA4RH8";

/// Its salt.
const SALT: [u8; 8] = [0, 1, 2, 3, 4, 5, 6, 7];

/// The keys under which it was made.
pub fn right_keys(alloc: Global) -> Result<Keys, NoMemory> {
    keys(alloc, b"bob-mac")
}

/// Keys under which its HMAC is another.
pub fn other_keys(alloc: Global) -> Result<Keys, NoMemory> {
    keys(alloc, b"bob-mad")
}

fn keys(alloc: Global, mac_key: &[u8; 7]) -> Result<Keys, NoMemory> {
    Ok(Keys {
        key: Bytes::copy(alloc, b"bob-key")?,
        kind: HashKind::Sha256,
        mac_key: Bytes::copy(alloc, mac_key)?,
    })
}

/// Opens a datagram so many times under the keys, and once more, and answers what the last time gives.
pub fn last_opened<L: Ledger>(
    alloc: Global,
    blank: Blank,
    datagram: &[u8],
    keys: &PreparedKeys,
    count: u64,
) -> Result<Fields, PacketFault>
    requires name { blank.name ≡ L.name }
    requires parts { blank.parts ≡ L.parts }
    requires some { 0 < L.parts }
    ensures { IfOk result (λ fields. Packs keys.now fields datagram.now) }
{
    let mut steps: Steps<L> = Steps::new(blank);
    for _ in 0..count {
        let _ = unpack(alloc, datagram, keys, &mut steps);
    }
    unpack(alloc, datagram, keys, &mut steps)
}

/// Packs the fields so many times under the keys, and once more, and answers what the last time gives.
pub fn last_packed(
    alloc: Global,
    fields: &Fields,
    keys: &Keys,
    count: u64,
) -> Result<Bytes, NoMemory>
    requires { field_fault fields.now ≡ None }
    ensures { IfOk result (λ datagram. (packs : Packs keys.now fields.now datagram) × (packs.salt ≡ SALT)) }
{
    for _ in 0..count {
        let _ = pack(alloc, fields, keys, SALT);
    }
    pack(alloc, fields, keys, SALT)
}
