// The state as four words, one for each column, and what a round makes of it (FIPS 197, sections 5.1 and 5.3.5).

ghost use Rattle.std.specs.Prelude.{◌≡◌, ◌<◌, ◌≤◌, ◌+◌, ◌*◌, length};
ghost use Rattle.std.specs.Int.{to_be_bytes, w32};
ghost use Rattle.fk_aes.specs.KeyExpansion.{word_at};
ghost use Rattle.fk_aes.specs.State.{add_round_key, inv_mix_columns, inv_shift_rows, inv_sub_bytes, mix_columns, shift_rows, sub_bytes};
ghost use Rattle.fk_aes.specs.Words.{bytes_of};

use crate::column::{inv_sub_column, inv_sub_mix_column, sub_column, sub_mix_column};

/// Word i of the bytes.
#[inline(always)]
pub(crate) fn word_at(bytes: &[u8], i: usize) -> u32
    requires { 4 * i + 4 ≤ length bytes.now }
    ensures { to_be_bytes w32 result ≡ word_at bytes.now i }
{
    u32::from_be_bytes([
        bytes[4 * i],
        bytes[4 * i + 1],
        bytes[4 * i + 2],
        bytes[4 * i + 3],
    ])
}

/// The columns of a block.
#[inline(always)]
pub(crate) fn columns_of(block: &[u8; 16]) -> [u32; 4]
    ensures { bytes_of result ≡ block.now }
{
    [
        word_at(block, 0),
        word_at(block, 1),
        word_at(block, 2),
        word_at(block, 3),
    ]
}

/// The block of the columns.
#[inline(always)]
pub(crate) fn block_of(columns: [u32; 4]) -> [u8; 16]
    ensures { result ≡ bytes_of columns }
{
    let [a, b, c, d] = columns;
    let [a0, a1, a2, a3] = a.to_be_bytes();
    let [b0, b1, b2, b3] = b.to_be_bytes();
    let [c0, c1, c2, c3] = c.to_be_bytes();
    let [d0, d1, d2, d3] = d.to_be_bytes();
    [
        a0, a1, a2, a3, b0, b1, b2, b3, c0, c1, c2, c3, d0, d1, d2, d3,
    ]
}

#[inline(always)]
pub(crate) fn add_round_key(columns: [u32; 4], schedule: &[u32; 60], round: usize) -> [u32; 4]
    requires { round < 15 }
    ensures { bytes_of result ≡ add_round_key (bytes_of columns) (bytes_of schedule.now) round }
{
    [
        columns[0] ^ schedule[4 * round],
        columns[1] ^ schedule[4 * round + 1],
        columns[2] ^ schedule[4 * round + 2],
        columns[3] ^ schedule[4 * round + 3],
    ]
}

/// SubBytes, ShiftRows and MixColumns.
#[inline(always)]
pub(crate) fn sub_shift_mix(columns: [u32; 4]) -> [u32; 4]
    ensures { bytes_of result ≡ mix_columns (shift_rows (sub_bytes (bytes_of columns))) }
{
    let [a, b, c, d] = columns;
    [
        sub_mix_column(a, b, c, d),
        sub_mix_column(b, c, d, a),
        sub_mix_column(c, d, a, b),
        sub_mix_column(d, a, b, c),
    ]
}

/// SubBytes and ShiftRows.
#[inline(always)]
pub(crate) fn sub_shift(columns: [u32; 4]) -> [u32; 4]
    ensures { bytes_of result ≡ shift_rows (sub_bytes (bytes_of columns)) }
{
    let [a, b, c, d] = columns;
    [
        sub_column(a, b, c, d),
        sub_column(b, c, d, a),
        sub_column(c, d, a, b),
        sub_column(d, a, b, c),
    ]
}

/// InvSubBytes, InvShiftRows and InvMixColumns.
#[inline(always)]
pub(crate) fn inv_sub_shift_mix(columns: [u32; 4]) -> [u32; 4]
    ensures { bytes_of result ≡ inv_mix_columns (inv_shift_rows (inv_sub_bytes (bytes_of columns))) }
{
    let [a, b, c, d] = columns;
    [
        inv_sub_mix_column(a, d, c, b),
        inv_sub_mix_column(b, a, d, c),
        inv_sub_mix_column(c, b, a, d),
        inv_sub_mix_column(d, c, b, a),
    ]
}

/// InvSubBytes and InvShiftRows.
#[inline(always)]
pub(crate) fn inv_sub_shift(columns: [u32; 4]) -> [u32; 4]
    ensures { bytes_of result ≡ inv_shift_rows (inv_sub_bytes (bytes_of columns)) }
{
    let [a, b, c, d] = columns;
    [
        inv_sub_column(a, d, c, b),
        inv_sub_column(b, a, d, c),
        inv_sub_column(c, b, a, d),
        inv_sub_column(d, c, b, a),
    ]
}
