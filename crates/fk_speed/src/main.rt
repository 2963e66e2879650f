//! The program `fk_speed PRIMITIVE COUNT`: it applies one primitive as often as COUNT says, each time to what came of it the
//! time before, and prints the last result in hexadecimal.
//!
//! It is for the scripts of `bench/`, where no program for users reaches the primitive alone. It reads no clock, so it
//! measures nothing itself, and it is not installed.
//!
//! Start at `repeat` and `packets`, whose contracts say what is repeated, and at `closes`.
#![tactic(auto)]

mod closes;
mod packets;
mod repeat;

use closes::closes_attempted;
use fk_base::{Bytes, Keys, Moment, NoMemory, read_decimal};
use fk_mac::PreparedKeys;
use fk_packet::PacketFault;
use packets::{DATAGRAM, last_opened, last_packed, other_keys, right_keys};
use repeat::{decrypted, encrypted, last_digest, last_keyed_mac, last_mac, last_md5};
use std::alloc::Global;
use std::marker::Brand;
use std::process::ExitCode;
use std::sync::ledger::Blank;
use std::{env, io};

fn main(rt: HostRuntime) -> ExitCode {
    match run(&rt) {
        Ok(true) => ExitCode::SUCCESS,
        Ok(false) => ExitCode::from(2),
        Err(_) => ExitCode::FAILURE,
    }
}

/// Answers whether the words name a primitive and a count.
fn run(rt: &HostRuntime) -> io::Result<bool> {
    let mut words = env::args(rt)?.skip(1);
    if let (Some(name), Some(count), None) = (words.next(), words.next(), words.next()) {
        if let Ok(count) = read_decimal(count.as_bytes()) {
            match last_result(rt.alloc(), name.as_str(), count) {
                Ok(Some(text)) => {
                    println!(rt; "{text}")?;
                    return Ok(true);
                }
                Ok(None) => {}
                Err(NoMemory) => return Err(io::ErrorKind::OutOfMemory.into()),
            }
        }
    }
    println!(rt;
        "usage: fk_speed encrypt|decrypt|mac|keyed|sha256|md5|open|refuse|pack|turn|turn-idle|turn-256|turn-4096 COUNT"
    )?;
    Ok(false)
}

/// The last result in hexadecimal; `None` where the name is no primitive's.
fn last_result(alloc: Global, name: &str, count: u64) -> Result<Option<String>, NoMemory> {
    match name {
        "encrypt" => Ok(Some(hex::encode(alloc, &encrypted(count))?)),
        "decrypt" => Ok(Some(hex::encode(alloc, &decrypted::<Brand>(Blank::new(1), count))?)),
        "mac" => Ok(Some(hex::encode(alloc, last_mac(count).as_slice())?)),
        "keyed" => Ok(Some(hex::encode(alloc, last_keyed_mac(count).as_slice())?)),
        "sha256" => Ok(Some(hex::encode(alloc, &last_digest(count))?)),
        "md5" => Ok(Some(hex::encode(alloc, &last_md5(count))?)),
        "open" => opened(alloc, right_keys(alloc)?, count),
        "refuse" => opened(alloc, other_keys(alloc)?, count),
        "pack" => packed(alloc, right_keys(alloc)?, count),
        "turn" => attempted(alloc, 0, count, 1000),
        "turn-idle" => attempted(alloc, 4096, count, 999),
        "turn-256" => attempted(alloc, 256, count, 1000),
        "turn-4096" => attempted(alloc, 4096, count, 1000),
        _ => Ok(None),
    }
}

/// The random value of the packet that was opened; no bytes where its HMAC was refused.
fn opened(alloc: Global, keys: Keys, count: u64) -> Result<Option<String>, NoMemory> {
    // A copy, since a compiler tests a constant's letters before the program runs.
    let datagram = Bytes::copy(alloc, DATAGRAM)?;
    let keys = PreparedKeys::new(keys);
    match last_opened::<Brand>(alloc, Blank::new(1), datagram.as_slice(), &keys, count) {
        Ok(fields) => Ok(Some(hex::encode(alloc, &fields.rand.digits())?)),
        Err(PacketFault::Mac) => Ok(Some(hex::encode(alloc, &[])?)),
        Err(PacketFault::NoMemory) => Err(NoMemory),
        Err(_) => Ok(None),
    }
}

/// The datagram of the same fields.
fn packed(alloc: Global, keys: Keys, count: u64) -> Result<Option<String>, NoMemory> {
    let keys = PreparedKeys::new(keys);
    match last_opened::<Brand>(alloc, Blank::new(1), DATAGRAM, &keys, 0) {
        Ok(fields) if fields.check().is_ok() => {
            let datagram = last_packed(alloc, &fields, keys.keys(), count)?;
            Ok(Some(hex::encode(alloc, datagram.as_slice())?))
        }
        Err(PacketFault::NoMemory) => Err(NoMemory),
        Ok(_) | Err(_) => Ok(None),
    }
}

/// How many closes were attempted in so many turns at this second, of so many records whose closes are due at second 1000.
fn attempted(
    alloc: Global,
    records: u64,
    turns: u64,
    second: u64,
) -> Result<Option<String>, NoMemory> {
    match Moment::new(second) {
        Some(moment) => {
            let attempted = closes_attempted(alloc, records, turns, moment)?;
            Ok(Some(hex::encode(alloc, &attempted.to_be_bytes())?))
        }
        None => Ok(None),
    }
}
