// The columns of a round, by tables: a byte of the state is looked up as what it adds to its column of the next state.

ghost use Rattle.std.specs.Prelude.{◌≡◌, [], ◌∷◌};
ghost use Rattle.std.specs.Int.{to_be_bytes, w32};
ghost use Rattle.fk_aes.specs.State.{inv_mix_column, mix_column};
ghost use Rattle.fk_aes.specs.Substitution.{inv_sub_byte, sub_byte};
ghost use Rattle.fk_aes.specs.Words.{byte_of, inv_mixed_byte, mixed_byte};

use crate::substitution::{inv_sub_byte, sub_byte};
use crate::tables::{
    INV_SUB_MIX_0, INV_SUB_MIX_1, INV_SUB_MIX_2, INV_SUB_MIX_3, SUB_MIX_0, SUB_MIX_1, SUB_MIX_2,
    SUB_MIX_3,
};

#[inline(always)]
fn sub_mix_0(byte: u8) -> u32
    ensures { to_be_bytes w32 result ≡ mixed_byte 0 (sub_byte byte) }
{
    SUB_MIX_0[byte as usize]
}

#[inline(always)]
fn sub_mix_1(byte: u8) -> u32
    ensures { to_be_bytes w32 result ≡ mixed_byte 1 (sub_byte byte) }
{
    SUB_MIX_1[byte as usize]
}

#[inline(always)]
fn sub_mix_2(byte: u8) -> u32
    ensures { to_be_bytes w32 result ≡ mixed_byte 2 (sub_byte byte) }
{
    SUB_MIX_2[byte as usize]
}

#[inline(always)]
fn sub_mix_3(byte: u8) -> u32
    ensures { to_be_bytes w32 result ≡ mixed_byte 3 (sub_byte byte) }
{
    SUB_MIX_3[byte as usize]
}

#[inline(always)]
fn inv_sub_mix_0(byte: u8) -> u32
    ensures { to_be_bytes w32 result ≡ inv_mixed_byte 0 (inv_sub_byte byte) }
{
    INV_SUB_MIX_0[byte as usize]
}

#[inline(always)]
fn inv_sub_mix_1(byte: u8) -> u32
    ensures { to_be_bytes w32 result ≡ inv_mixed_byte 1 (inv_sub_byte byte) }
{
    INV_SUB_MIX_1[byte as usize]
}

#[inline(always)]
fn inv_sub_mix_2(byte: u8) -> u32
    ensures { to_be_bytes w32 result ≡ inv_mixed_byte 2 (inv_sub_byte byte) }
{
    INV_SUB_MIX_2[byte as usize]
}

#[inline(always)]
fn inv_sub_mix_3(byte: u8) -> u32
    ensures { to_be_bytes w32 result ≡ inv_mixed_byte 3 (inv_sub_byte byte) }
{
    INV_SUB_MIX_3[byte as usize]
}

/// SubBytes and MixColumns of the column whose row r is byte r of the word r.
#[inline(always)]
pub(crate) fn sub_mix_column(a: u32, b: u32, c: u32, d: u32) -> u32
    ensures { to_be_bytes w32 result
        ≡ mix_column (sub_byte (byte_of a 0)) (sub_byte (byte_of b 1)) (sub_byte (byte_of c 2)) (sub_byte (byte_of d 3)) }
{
    let [a0, _, _, _] = a.to_be_bytes();
    let [_, b1, _, _] = b.to_be_bytes();
    let [_, _, c2, _] = c.to_be_bytes();
    let [_, _, _, d3] = d.to_be_bytes();
    sub_mix_0(a0) ^ sub_mix_1(b1) ^ sub_mix_2(c2) ^ sub_mix_3(d3)
}

/// InvSubBytes and InvMixColumns of the column whose row r is byte r of the word r.
#[inline(always)]
pub(crate) fn inv_sub_mix_column(a: u32, b: u32, c: u32, d: u32) -> u32
    ensures { to_be_bytes w32 result
        ≡ inv_mix_column (inv_sub_byte (byte_of a 0)) (inv_sub_byte (byte_of b 1)) (inv_sub_byte (byte_of c 2)) (inv_sub_byte (byte_of d 3)) }
{
    let [a0, _, _, _] = a.to_be_bytes();
    let [_, b1, _, _] = b.to_be_bytes();
    let [_, _, c2, _] = c.to_be_bytes();
    let [_, _, _, d3] = d.to_be_bytes();
    inv_sub_mix_0(a0) ^ inv_sub_mix_1(b1) ^ inv_sub_mix_2(c2) ^ inv_sub_mix_3(d3)
}

/// SubBytes of the column whose row r is byte r of the word r.
#[inline(always)]
pub(crate) fn sub_column(a: u32, b: u32, c: u32, d: u32) -> u32
    ensures { to_be_bytes w32 result
        ≡ sub_byte (byte_of a 0) ∷ sub_byte (byte_of b 1) ∷ sub_byte (byte_of c 2) ∷ sub_byte (byte_of d 3) ∷ [] }
{
    let [a0, _, _, _] = a.to_be_bytes();
    let [_, b1, _, _] = b.to_be_bytes();
    let [_, _, c2, _] = c.to_be_bytes();
    let [_, _, _, d3] = d.to_be_bytes();
    u32::from_be_bytes([sub_byte(a0), sub_byte(b1), sub_byte(c2), sub_byte(d3)])
}

/// InvSubBytes of the column whose row r is byte r of the word r.
#[inline(always)]
pub(crate) fn inv_sub_column(a: u32, b: u32, c: u32, d: u32) -> u32
    ensures { to_be_bytes w32 result
        ≡ inv_sub_byte (byte_of a 0) ∷ inv_sub_byte (byte_of b 1) ∷ inv_sub_byte (byte_of c 2) ∷ inv_sub_byte (byte_of d 3) ∷ [] }
{
    let [a0, _, _, _] = a.to_be_bytes();
    let [_, b1, _, _] = b.to_be_bytes();
    let [_, _, c2, _] = c.to_be_bytes();
    let [_, _, _, d3] = d.to_be_bytes();
    u32::from_be_bytes([
        inv_sub_byte(a0),
        inv_sub_byte(b1),
        inv_sub_byte(c2),
        inv_sub_byte(d3),
    ])
}
