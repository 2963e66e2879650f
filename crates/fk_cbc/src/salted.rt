ghost use Rattle.std.specs.Prelude.{◌≡◌, ◌≢◌, ℕ, ◌+◌, ◌*◌, ◌/◌, ◌%◌, ◌⊎◌, ◌≤◌, ◌++◌, List, Err, length, IfErr, IfOk, MatchResult, OnOk};
ghost use Rattle.fk_base.specs.Bytes.{IsBytes};
ghost use Rattle.fk_cbc.specs.Chain.{Encrypts};
ghost use Rattle.fk_cbc.specs.KeyDerivation.{cipher_key, initial_vector};
ghost use Rattle.fk_cbc.specs.OpenFault.{FirstOpenFault, HasBadLength, HasMark};
ghost use Rattle.fk_cbc.specs.Padding.{padded};
ghost use Rattle.fk_cbc.specs.Seals.{Seals, block_count, salt_in, salt_mark};

use crate::OpenFault;
use crate::chain::{open_blocks, seal_blocks};
use crate::derivation::derive;
use crate::padding::{padding_len, plain_len};
use fk_aes::Key256;
use fk_base::{Bytes, NoMemory, Steps};
use std::alloc::Global;
use std::sync::ledger::Ledger;

const MARK: &[u8; 8] = b"Salted__";

/// The sealed bytes of `plain` under a key and a salt.
pub fn seal(alloc: Global, key: &[u8], salt: [u8; 8], plain: &[u8]) -> Result<Bytes, NoMemory>
    ensures sealed { IfOk result (λ sealed. Seals key.now salt plain.now sealed) }
    ensures len { IfOk result (λ sealed. length sealed ≡ 32 + length plain.now / 16 * 16) }
{
    let (cipher_key, vector) = derive(key, salt);
    let mut sealed = marked(alloc, &salt, plain)?;
    seal_blocks(&Key256::new(cipher_key), vector, &mut sealed[16..]);
    Ok(sealed.into())
}

/// The plaintext that was sealed, under the salt that stands in the bytes. The mark and the length are tested before memory is
/// asked for, and each block that is deciphered is counted.
pub fn open<L: Ledger>(
    alloc: Global,
    key: &[u8],
    sealed: &[u8],
    steps: &mut Steps<L>,
) -> Result<Bytes, OpenFault>
    ensures opened { IfOk result (λ plain. Seals key.now (salt_in sealed.now) plain sealed.now) }
    ensures right { (salt plain : List ℕ) → Seals key.now salt plain sealed.now
        → MatchResult result (λ p. p ≡ plain) (λ e. e ≡ OpenFault.NoMemory) }

    ensures fault { IfErr result (λ e. (e ≡ OpenFault.NoMemory) ⊎ FirstOpenFault key.now sealed.now e) }
    ensures refused { (e : OpenFault) → FirstOpenFault key.now sealed.now e
        → (result ≡ Err e) ⊎ ((result ≡ Err OpenFault.NoMemory) × (e ≡ OpenFault.BadPadding)) }

    ensures opened_steps { OnOk result (steps.new ≡ steps.old + block_count sealed.now) }
    ensures no_steps { (result ≡ Err OpenFault.NotSalted) ⊎ (result ≡ Err OpenFault.BadLength)
        → steps.new ≡ steps.old }
    ensures padding_steps { result ≡ Err OpenFault.BadPadding → steps.new ≡ steps.old + block_count sealed.now }
    ensures memory_steps { result ≡ Err OpenFault.NoMemory → steps.new ≡ steps.old }
    ensures least_steps { steps.old ≤ steps.new }
    ensures most_steps { steps.new ≤ steps.old + block_count sealed.now }
{
    let salt = read_salt(sealed)?;
    let mut text = deciphered(alloc, key, salt, &sealed[16..], steps)?;
    match plain_len(&text) {
        Some(len) => {
            text.truncate(len);
            Ok(text.into())
        }
        None => Err(OpenFault::BadPadding),
    }
}

/// Under one key no two plaintexts have the same sealed bytes, and no two salts either.
pub fn one_plaintext()
    ensures { (key salt plain other_salt other sealed : List ℕ) → Seals key salt plain sealed
        → Seals key other_salt other sealed → (plain ≡ other) × (salt ≡ other_salt) }
{}

// The mark, the salt and the padded plaintext, in one buffer of just that size.
fn marked(alloc: Global, salt: &[u8], plain: &[u8]) -> Result<Vec<u8>, NoMemory>
    ensures text { IfOk result (λ v. v.items ≡ salt_mark ++ salt.now ++ padded plain.now) }
    ensures salt { IsBytes salt.now }
{
    let n = padding_len(plain.len());
    let mut bytes = Vec::with_capacity(alloc, 16 + plain.len() + usize::from(n))?;
    bytes.extend_from_slice(MARK)?;
    bytes.extend_from_slice(salt)?;
    bytes.extend_from_slice(plain)?;
    bytes.extend_from_slice(&[n; 16][..usize::from(n)])?;
    Ok(bytes)
}

// The salt of sealed bytes, where the mark and the length are right.
fn read_salt(sealed: &[u8]) -> Result<[u8; 8], OpenFault>
    ensures { MatchResult result
        (λ salt. HasMark sealed.now × ¬ HasBadLength sealed.now × (salt ≡ salt_in sealed.now))
        (λ e. ((e ≡ OpenFault.NotSalted) × ¬ HasMark sealed.now)
        ⊎ ((e ≡ OpenFault.BadLength) × HasMark sealed.now × HasBadLength sealed.now)) }
{
    if !sealed.starts_with(MARK) {
        return Err(OpenFault::NotSalted);
    }
    if sealed.len() < 32 || sealed.len() % 16 != 0 {
        return Err(OpenFault::BadLength);
    }
    let mut salt = [0; 8];
    salt.copy_from_slice(&sealed[8..16]);
    Ok(salt)
}

// The text that the blocks decipher to, with its padding.
fn deciphered<L: Ledger>(
    alloc: Global,
    key: &[u8],
    salt: [u8; 8],
    blocks: &[u8],
    steps: &mut Steps<L>,
) -> Result<Vec<u8>, NoMemory>
    requires { length blocks.now % 16 ≡ 0 }
    ensures text { IfOk result (λ text. Encrypts (cipher_key key.now salt) (initial_vector key.now salt) text.items blocks.now) }
    ensures steps { MatchResult result (λ _. steps.new ≡ steps.old + length blocks.now / 16)
        (λ _. steps.new ≡ steps.old) }
{
    let (cipher_key, vector) = derive(key, salt);
    let mut text = Vec::from_slice(alloc, blocks)?;
    open_blocks(&Key256::new(cipher_key), vector, &mut text, steps);
    Ok(text)
}
