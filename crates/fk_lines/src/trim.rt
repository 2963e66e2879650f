ghost use Rattle.std.specs.Prelude.{◌≡◌, ◌<◌, ◌≤◌, length, reverse};
ghost use Rattle.std.specs.List.{position, position_or_len};
ghost use Rattle.fk_base.specs.Characters.{is_blank};
ghost use Rattle.fk_lines.specs.Lines.{is_no_blank, trim_back, trim_front, trimmed, without_last};

/// A space or a tab.
pub fn is_blank(byte: u8) -> bool
    ensures { result ≡ is_blank byte }
{
    byte == b' ' || byte == b'\t'
}

/// The text from its first byte on that is no blank.
pub fn trim_front(text: &[u8]) -> &[u8]
    ensures { result.now ≡ trim_front text.now }
{
    &text[blanks_ahead(text)..]
}

/// The text up to its last byte that is no blank.
pub(crate) fn trim_back(text: &[u8]) -> &[u8]
    ensures { result.now ≡ trim_back text.now }
{
    &text[..text.len() - blanks_behind(text)]
}

fn blanks_ahead(text: &[u8]) -> usize
    ensures count { result ≡ position_or_len is_no_blank text.now }
    ensures within { result ≤ length text.now }
{
    first_no_blank(text).unwrap_or(text.len())
}

fn blanks_behind(text: &[u8]) -> usize
    ensures count { result ≡ position_or_len is_no_blank (reverse text.now) }
    ensures within { result ≤ length text.now }
{
    last_no_blank(text).unwrap_or(text.len())
}

fn first_no_blank(text: &[u8]) -> Option<usize>
    ensures { result ≡ position is_no_blank text.now }
{
    text.iter().position(|byte| !is_blank(*byte))
}

/// How many blanks stand behind the last byte that is none.
fn last_no_blank(text: &[u8]) -> Option<usize>
    ensures { result ≡ position is_no_blank (reverse text.now) }
{
    text.iter().rev().position(|byte| !is_blank(*byte))
}

/// The text without the blanks at both of its ends.
pub(crate) fn trim(text: &[u8]) -> &[u8]
    ensures { result.now ≡ trimmed text.now }
{
    trim_back(trim_front(text))
}

/// The text without this byte at its end, where it has it there.
pub fn without_last(text: &[u8], byte: u8) -> &[u8]
    requires { 0 < byte }
    ensures { result.now ≡ without_last byte text.now }
{
    match text.split_last() {
        Some((last, rest)) if *last == byte => rest,
        _ => text,
    }
}
