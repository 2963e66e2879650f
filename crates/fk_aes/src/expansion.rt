// The key expansion (FIPS 197, section 5.2), and the schedule of the equivalent inverse cipher (section 5.3.5).

ghost use Rattle.std.specs.Prelude.{◌≡◌, ◌≤◌, ◌<◌, ◌-◌, ◌*◌, ◌/◌, ◌++◌, take, get_or, length};
ghost use Rattle.std.specs.Int.{to_be_bytes, w32};
ghost use Rattle.fk_aes.specs.EquivalentInverse.{IsInverseSchedule};
ghost use Rattle.fk_aes.specs.KeyExpansion.{addend, key_expansion, rot_word, round_constant, sub_word};
ghost use Rattle.fk_aes.specs.State.{at_column, inv_mix_column};
ghost use Rattle.fk_aes.specs.Words.{bytes_of};

use crate::column::{inv_sub_mix_column, sub_column};
use crate::state::word_at;

// x^0, x^1, .. in the field: the first bytes of the round constants Rcon[1], Rcon[2], ..
const ROUND_CONSTANTS: [u8; 7] = [0x01, 0x02, 0x04, 0x08, 0x10, 0x20, 0x40];

fn rot_word(word: u32) -> u32
    ensures { to_be_bytes w32 result ≡ rot_word (to_be_bytes w32 word) }
{
    let [a, b, c, d] = word.to_be_bytes();
    u32::from_be_bytes([b, c, d, a])
}

fn sub_word(word: u32) -> u32
    ensures { to_be_bytes w32 result ≡ sub_word (to_be_bytes w32 word) }
{
    sub_column(word, word, word, word)
}

fn round_constant(j: usize) -> u32
    requires low { 1 ≤ j }
    requires high { j < 8 }
    ensures { to_be_bytes w32 result ≡ round_constant j }
{
    u32::from_be_bytes([ROUND_CONSTANTS[j - 1], 0, 0, 0])
}

fn addend(i: usize, word: u32) -> u32
    requires low { 8 ≤ i }
    requires high { i < 60 }
    ensures { to_be_bytes w32 result ≡ addend i (to_be_bytes w32 word) }
{
    if i % 8 == 0 {
        sub_word(rot_word(word)) ^ round_constant(i / 8)
    } else if i % 8 == 4 {
        sub_word(word)
    } else {
        word
    }
}

fn key_words(key: &[u8; 32]) -> [u32; 8]
    ensures { bytes_of result ≡ key.now }
{
    [
        word_at(key, 0),
        word_at(key, 1),
        word_at(key, 2),
        word_at(key, 3),
        word_at(key, 4),
        word_at(key, 5),
        word_at(key, 6),
        word_at(key, 7),
    ]
}

/// The key schedule of a key, word after word.
pub(crate) fn expand(key: &[u8; 32]) -> [u32; 60]
    ensures { bytes_of result ≡ key_expansion key.now }
{
    let mut schedule = [0; 60];
    schedule[..8].copy_from_slice(&key_words(key));
    for i in 8..60 {
        schedule[i] = schedule[i - 8] ^ addend(i, schedule[i - 1]);
    }
    schedule
}

// InvMixColumns of one column: the substitution undoes the inverse one, which the tables have before the mixing.
fn inv_mix_word(word: u32) -> u32
    ensures { to_be_bytes w32 result ≡ at_column inv_mix_column (to_be_bytes w32 word) 0 }
{
    let word = sub_word(word);
    inv_sub_mix_column(word, word, word, word)
}

/// The schedule of the equivalent inverse cipher, from that of the cipher.
pub(crate) fn inverse_schedule(schedule: &[u32; 60]) -> [u32; 60]
    ensures { IsInverseSchedule (bytes_of schedule.now) (bytes_of result) }
{
    let mut inverse = *schedule;
    for i in 4..56 {
        inverse[i] = inv_mix_word(schedule[i]);
    }
    inverse
}
