ghost use Rattle.std.specs.Prelude.{◌≡◌};
ghost use Rattle.fk_aes.specs.Cipher.{cipher_by};
ghost use Rattle.fk_aes.specs.EquivalentInverse.{equivalent_decipher_by};
ghost use Rattle.fk_aes.specs.Words.{bytes_of};

use crate::state::{
    add_round_key, block_of, columns_of, inv_sub_shift, inv_sub_shift_mix, sub_shift, sub_shift_mix,
};

/// Applies the cipher with a key schedule (FIPS 197, section 5.1).
pub(crate) fn encrypt_by(schedule: &[u32; 60], block: &mut [u8; 16])
    ensures { block.new ≡ cipher_by (bytes_of schedule.now) block.old }
{
    let mut columns = add_round_key(columns_of(block), schedule, 0);
    for round in 1..14 {
        columns = add_round_key(sub_shift_mix(columns), schedule, round);
    }
    // Round 14 has no MixColumns.
    *block = block_of(add_round_key(sub_shift(columns), schedule, 14));
}

/// Applies the equivalent inverse cipher with its own key schedule (FIPS 197, section 5.3.5).
pub(crate) fn decrypt_by(schedule: &[u32; 60], block: &mut [u8; 16])
    ensures { block.new ≡ equivalent_decipher_by (bytes_of schedule.now) block.old }
{
    let mut columns = add_round_key(columns_of(block), schedule, 14);
    for round in (1..14).rev() {
        columns = add_round_key(inv_sub_shift_mix(columns), schedule, round);
    }
    // The last round has no InvMixColumns.
    *block = block_of(add_round_key(inv_sub_shift(columns), schedule, 0));
}
