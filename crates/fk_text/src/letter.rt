ghost use Rattle.std.specs.Prelude.{◌≡◌, ◌≢◌, ◌%◌, ◌==◌, length, position, MatchBool};
ghost use Rattle.fk_text.specs.TextFault.{letter_number, HasZeroRest};

/// What `letter_number` answers for a byte that is no letter.
pub const NO_LETTER: u8 = 64;

/// The number of a letter of RFC 4648's table 1.
pub fn letter_number(letter: u8) -> u8
    ensures { result ≡ letter_number letter }
{
    match letter {
        b'A'..=b'Z' => letter - b'A',
        b'a'..=b'z' => letter - b'a' + 26,
        b'0'..=b'9' => letter - b'0' + 52,
        b'+' => 62,
        b'/' => 63,
        _ => NO_LETTER,
    }
}

/// The first place whose byte is no letter.
pub fn first_bad_byte(text: &[u8]) -> Option<usize>
    ensures { result ≡ position (λ c. letter_number c == 64) text.now }
{
    text.iter().position(|c| letter_number(*c) == NO_LETTER)
}

/// Whether the last letter holds bits past the last byte that are not zero.
pub fn has_loose_bits(text: &[u8]) -> bool
    requires { length text.now % 4 ≢ 1 }
    ensures { MatchBool result (¬ HasZeroRest text.now) (HasZeroRest text.now) }
{
    match text.len() % 4 {
        2 => letter_number(text[text.len() - 1]) % 16 != 0,
        3 => letter_number(text[text.len() - 1]) % 4 != 0,
        _ => false,
    }
}
