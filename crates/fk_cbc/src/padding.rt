ghost use Rattle.std.specs.Prelude.{◌≡◌, ◌↔◌, ◌-◌, ◌%◌, ◌≤◌, ◌++◌, length, take, All, IsTrue, MatchOption};
ghost use Rattle.fk_cbc.specs.Padding.{HasPadding, padding};

/// How many bytes of padding follow a plaintext of this length.
pub(crate) fn padding_len(plain_len: usize) -> u8
    ensures { result ≡ 16 - plain_len % 16 }
{
    16 - (plain_len % 16) as u8
}

/// How long the plaintext before the padding is, where a text ends in a right one.
pub(crate) fn plain_len(text: &[u8]) -> Option<usize>
    ensures { MatchOption result (¬ HasPadding text.now)
        (λ len. (text.now ≡ take len text.now ++ padding (length text.now - len))
        × (1 ≤ length text.now - len) × (length text.now - len ≤ 16)) }
{
    let last = *text.last()?;
    let n = usize::from(last);
    if n == 0 || n > 16 || n > text.len() || !has_only(&text[text.len() - n..], last) {
        return None;
    }
    Some(text.len() - n)
}

fn has_only(bytes: &[u8], value: u8) -> bool
    ensures { IsTrue result ↔ All (λ b. b ≡ value) bytes.now }
{
    bytes.iter().all(|b| *b == value)
}
