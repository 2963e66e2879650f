//! Payloads as they are written.
ghost use Rattle.std.specs.Prelude.{◌≡◌, ◌+◌, ◌≤◌, ◌++◌, length, vec_capacity};
ghost use Rattle.std.specs.Int.{w64, to_be_bytes};
ghost use Rattle.fk_base.specs.Bytes.{HasBytes, IsBytes};
ghost use Rattle.fk_base.specs.CommandWords.{AreCommandWords};
ghost use Rattle.fk_ledger.specs.Payloads.{floor_bytes, greatest_stamp, proto_number, record_bytes, settled_bytes, IsRecord, words_bytes, word_bytes};

use fk_base::{Digest, Proto, Words};
use fk_trace::OpenRecord;

/// How many bytes a record's numbers take: its own, the stamp, the moment, the due, the address, the protocol, the port, and how many words
/// there are.
const NUMBERS_LEN: usize = 8 + 8 + 8 + 8 + 4 + 1 + 2 + 1;

/// How many bytes a record's payload has.
pub(crate) fn record_len(item: &OpenRecord) -> usize
    requires { AreCommandWords item.now.close }
    ensures len { result ≡ length (record_bytes item.now) }
    ensures bound { result ≤ 12136 }
{
    NUMBERS_LEN + digest_len(item.digest.0) + words_len(&item.close)
}

fn digest_len(digest: [u8; 32]) -> usize
    ensures len { result ≡ length digest }
    ensures fixed { result ≡ 32 }
{
    digest.len()
}

/// How many bytes the words have, with the two bytes of each length.
fn words_len(words: &Words) -> usize
    requires { AreCommandWords words.now }
    ensures len { result + 1 ≡ length (words_bytes words.now) }
    ensures bound { result ≤ 12064 }
{
    let mut len = 0;
    for at in 0..words.count() {
        len += 2 + words.get(at).len();
    }
    len
}

/// Writes a record's payload into the buffer, which is emptied before.
pub(crate) fn write_record(buffer: &mut Vec<u8>, item: &OpenRecord)
    requires words { AreCommandWords item.now.close }
    requires stamp { item.now.stamp ≤ greatest_stamp }
    requires room { length (record_bytes item.now) ≤ vec_capacity buffer.old }
    ensures bytes { buffer.new.items ≡ record_bytes item.now }
    ensures values { IsRecord item.now }
    ensures capacity { vec_capacity buffer.new ≡ vec_capacity buffer.old }
{
    buffer.clear();
    push_all(buffer, &item.id.to_be_bytes());
    push_digest(buffer, item.digest.0);
    push_all(buffer, &item.stamp.to_be_bytes());
    push_all(buffer, &item.moment.get().to_be_bytes());
    push_all(buffer, &item.due.to_be_bytes());
    push_all(buffer, &item.ip.0.to_be_bytes());
    buffer.push_reserved(proto_number(item.pair.proto));
    push_all(buffer, &item.pair.port.to_be_bytes());
    push_words(buffer, &item.close);
}

/// Writes the payload of a Settled into the buffer, which is emptied before.
pub(crate) fn write_settled(buffer: &mut Vec<u8>, id: u64, stamp: u64, digest: &Digest)
    requires room { 48 ≤ vec_capacity buffer.old }
    ensures bytes { buffer.new.items ≡ settled_bytes id stamp digest.now }
    ensures len { length buffer.new.items ≡ 48 }
    ensures capacity { vec_capacity buffer.new ≡ vec_capacity buffer.old }
{
    buffer.clear();
    push_all(buffer, &id.to_be_bytes());
    push_all(buffer, &stamp.to_be_bytes());
    push_digest(buffer, digest.0);
}

/// Writes the payload of a Floor into the buffer, which is emptied before.
pub(crate) fn write_floor(buffer: &mut Vec<u8>, floor: u64, next: u64)
    requires room { 16 ≤ vec_capacity buffer.old }
    ensures bytes { buffer.new.items ≡ floor_bytes floor next }
    ensures len { length buffer.new.items ≡ 16 }
    ensures capacity { vec_capacity buffer.new ≡ vec_capacity buffer.old }
{
    buffer.clear();
    push_all(buffer, &floor.to_be_bytes());
    push_all(buffer, &next.to_be_bytes());
}

/// Writes the payload of a Done into the buffer, which is emptied before.
pub(crate) fn write_done(buffer: &mut Vec<u8>, id: u64)
    requires room { 8 ≤ vec_capacity buffer.old }
    ensures bytes { buffer.new.items ≡ to_be_bytes w64 id }
    ensures len { length buffer.new.items ≡ 8 }
    ensures capacity { vec_capacity buffer.new ≡ vec_capacity buffer.old }
{
    buffer.clear();
    push_all(buffer, &id.to_be_bytes());
}

fn push_digest(buffer: &mut Vec<u8>, digest: [u8; 32])
    requires room { length buffer.old.items + length digest ≤ vec_capacity buffer.old }
    ensures items { buffer.new.items ≡ buffer.old.items ++ digest }
    ensures bytes { HasBytes 32 digest }
    ensures capacity { vec_capacity buffer.new ≡ vec_capacity buffer.old }
{
    push_all(buffer, &digest);
}

fn proto_number(proto: Proto) -> u8
    ensures { result ≡ proto_number proto }
{
    match proto {
        Proto::Tcp => 6,
        Proto::Udp => 17,
    }
}

fn push_words(buffer: &mut Vec<u8>, words: &Words)
    requires words { AreCommandWords words.now }
    requires room { length buffer.old.items + length (words_bytes words.now) ≤ vec_capacity buffer.old }
    ensures items { buffer.new.items ≡ buffer.old.items ++ words_bytes words.now }
    ensures capacity { vec_capacity buffer.new ≡ vec_capacity buffer.old }
{
    buffer.push_reserved(words.count() as u8);
    for at in 0..words.count() {
        push_word(buffer, words.get(at));
    }
}

fn push_word(buffer: &mut Vec<u8>, word: &[u8])
    requires size { length word.now ≤ 12000 }
    requires room { length buffer.old.items + length (word_bytes word.now) ≤ vec_capacity buffer.old }
    ensures items { buffer.new.items ≡ buffer.old.items ++ word_bytes word.now }
    ensures capacity { vec_capacity buffer.new ≡ vec_capacity buffer.old }
{
    push_all(buffer, &(word.len() as u16).to_be_bytes());
    push_all(buffer, word);
}

/// Appends the bytes, for which there is room.
fn push_all(buffer: &mut Vec<u8>, bytes: &[u8])
    requires room { length buffer.old.items + length bytes.now ≤ vec_capacity buffer.old }
    ensures items { buffer.new.items ≡ buffer.old.items ++ bytes.now }
    ensures bytes { IsBytes bytes.now }
    ensures capacity { vec_capacity buffer.new ≡ vec_capacity buffer.old }
{
    for byte in bytes {
        buffer.push_reserved(*byte);
    }
}
