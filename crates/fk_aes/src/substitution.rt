ghost use Rattle.std.specs.Prelude.{◌≡◌};
ghost use Rattle.fk_aes.specs.Substitution.{inv_sub_byte, sub_byte};

use crate::tables::{INVERSE_SUBSTITUTION, SUBSTITUTION};

pub(crate) fn sub_byte(byte: u8) -> u8
    ensures { result ≡ sub_byte byte }
{
    SUBSTITUTION[byte as usize]
}

pub(crate) fn inv_sub_byte(byte: u8) -> u8
    ensures { result ≡ inv_sub_byte byte }
{
    INVERSE_SUBSTITUTION[byte as usize]
}
