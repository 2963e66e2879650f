ghost use Rattle.std.specs.Prelude.{◌≡◌, ◌+◌};
ghost use Rattle.fk_aes.specs.Cipher.{cipher, decipher};

use crate::expansion::{expand, inverse_schedule};
use crate::rounds::{decrypt_by, encrypt_by};
use fk_base::Steps;
use std::marker::Model;
use std::sync::ledger::Ledger;

/// A key of 256 bits with its two key schedules.
#[derive(Drop)]
pub struct Key256 {
    schedule: [u32; 60],
    // That of the equivalent inverse cipher.
    inverse: [u32; 60],
}

impl Model for Key256 {
    ghost use Rattle.std.specs.Prelude.{◌≡◌, List, ℕ, take};
    ghost use Rattle.fk_aes.specs.EquivalentInverse.{IsInverseSchedule};
    ghost use Rattle.fk_aes.specs.KeyExpansion.{key_expansion};
    ghost use Rattle.fk_aes.specs.Words.{bytes_of};

    // The 32 bytes of the key, with which its schedule begins.
    ghost Value = { List ℕ };

    ghost view = { λ k. take 32 (bytes_of k.schedule) };

    ghost invariant = { λ k. record {
      expanded : bytes_of k.schedule ≡ key_expansion (take 32 (bytes_of k.schedule));
      inverse : IsInverseSchedule (bytes_of k.schedule) (bytes_of k.inverse);
    } };
}

impl Key256 {
    pub fn new(key: [u8; 32]) -> Key256
        ensures { result ≡ key }
    {
        let schedule = expand(&key);
        let inverse = inverse_schedule(&schedule);
        Key256 { schedule, inverse }
    }

    /// Applies the cipher to a block (FIPS 197, section 5.1).
    pub fn encrypt(&self, block: &mut [u8; 16])
        ensures { block.new ≡ cipher self.now block.old }
    {
        encrypt_by(&self.schedule, block);
    }

    /// Applies the inverse cipher to a block (FIPS 197, section 5.3), and counts it.
    pub fn decrypt<L: Ledger>(&self, block: &mut [u8; 16], steps: &mut Steps<L>)
        ensures block { block.new ≡ decipher self.now block.old }
        ensures steps { steps.new ≡ steps.old + 1 }
    {
        decrypt_by(&self.inverse, block);
        steps.tick();
    }
}
