ghost use Rattle.std.specs.Prelude.{◌≡◌, ◌==◌, IfSome, position, ◌<◌, ◌+◌, ◌≤◌, ◌∷◌, length};
ghost use Rattle.fk_lines.specs.Lines.{raw_lines};

/// The first line of a text that is not empty, and what stands behind its line feed.
pub(crate) fn cut_line(text: &[u8]) -> (&[u8], &[u8])
    requires { 0 < length text.now }
    ensures lines { raw_lines text.now ≡ result.0.now ∷ raw_lines result.1.now }
    ensures shorter { length result.1.now < length text.now }
{
    match first_feed(text) {
        Some(at) => (&text[..at], &text[at + 1..]),
        None => (text, &text[text.len()..]),
    }
}

fn first_feed(text: &[u8]) -> Option<usize>
    ensures place { result ≡ position (λ byte. byte == 10) text.now }
    ensures inside { IfSome result (λ at. at < length text.now) }
{
    text.iter().position(|byte| *byte == b'\n')
}
