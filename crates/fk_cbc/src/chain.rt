// Cipher block chaining, in place (NIST SP 800-38A, section 6.2).

ghost use Rattle.std.specs.Prelude.{◌≡◌, ◌+◌, ◌/◌, ◌%◌, ◌<◌, length};
ghost use Rattle.fk_aes.specs.Cipher.{cipher};
ghost use Rattle.fk_base.specs.Bytes.{HasBytes};
ghost use Rattle.fk_aes.specs.Field.{xor_bytes};
ghost use Rattle.fk_cbc.specs.Chain.{Encrypts};

use fk_aes::Key256;
use fk_base::Steps;
use std::sync::ledger::Ledger;

/// Encrypts a text of whole blocks, from the first to the last.
pub(crate) fn seal_blocks(key: &Key256, vector: [u8; 16], text: &mut [u8])
    requires { length text.old % 16 ≡ 0 }
    ensures { Encrypts key.now vector text.old text.new }
{
    let mut before = vector;
    for i in 0..text.len() / 16 {
        before = seal_block(key, &before, &mut text[16 * i..16 * i + 16]);
    }
}

/// Decrypts a text of whole blocks, from the first to the last, and counts each.
pub(crate) fn open_blocks<L: Ledger>(
    key: &Key256,
    vector: [u8; 16],
    text: &mut [u8],
    steps: &mut Steps<L>,
)
    requires key { HasBytes 32 key.now }
    requires blocks { length text.old % 16 ≡ 0 }
    ensures plain { Encrypts key.now vector text.new text.old }
    ensures steps { steps.new ≡ steps.old + length text.old / 16 }
{
    let mut before = vector;
    for i in 0..text.len() / 16 {
        before = open_block(key, &before, &mut text[16 * i..16 * i + 16], steps);
    }
}

// Encrypts one block, with the encrypted block before it, and answers the encrypted block.
fn seal_block(key: &Key256, before: &[u8; 16], block: &mut [u8]) -> [u8; 16]
    requires { length block.old ≡ 16 }
    ensures written { block.new ≡ result }
    ensures encrypted { result ≡ cipher key.now (xor_bytes block.old before.now) }
{
    let mut sealed = [0; 16];
    sealed.copy_from_slice(block);
    xor_block(&mut sealed, before);
    key.encrypt(&mut sealed);
    block.copy_from_slice(&sealed);
    sealed
}

// Decrypts one block, with the encrypted block before it, and answers the encrypted block.
fn open_block<L: Ledger>(
    key: &Key256,
    before: &[u8; 16],
    block: &mut [u8],
    steps: &mut Steps<L>,
) -> [u8; 16]
    requires key { HasBytes 32 key.now }
    requires block { HasBytes 16 block.old }
    ensures encrypted { result ≡ block.old }
    ensures bytes { HasBytes 16 block.new }
    ensures plain { block.old ≡ cipher key.now (xor_bytes block.new before.now) }
    ensures steps { steps.new ≡ steps.old + 1 }
{
    let mut encrypted = [0; 16];
    encrypted.copy_from_slice(block);
    let mut plain = encrypted;
    key.decrypt(&mut plain, steps);
    xor_block(&mut plain, before);
    block.copy_from_slice(&plain);
    encrypted
}

fn xor_block(block: &mut [u8; 16], other: &[u8; 16])
    ensures { block.new ≡ xor_bytes block.old other.now }
{
    for (i, byte) in block.iter_mut().enumerate() {
        *byte ^= other[i];
    }
}
