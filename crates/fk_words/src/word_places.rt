ghost use Rattle.std.specs.Prelude.{◌≡◌, ◌≤◌, drop, length, IfSome, Some};
ghost use Rattle.std.specs.Option.{option_map};
ghost use Rattle.fk_words.specs.WordPlaces.{is_only, is_word, word_behind, words_behind};

use fk_base::Words;

/// Whether such a word is there.
pub(crate) fn is_in(words: &Words, text: &[u8]) -> bool
    ensures { result ≡ is_word text.now words.now }
{
    match place_behind(words, text) {
        Some(_) => true,
        None => false,
    }
}

/// The word behind the first such word.
pub(crate) fn word_behind<'a>(words: &'a Words, text: &[u8]) -> Option<&'a [u8]>
    ensures { option_map (λ word. word.now) result ≡ word_behind text.now words.now }
{
    let at = place_behind(words, text)?;
    if at < words.count() {
        Some(words.get(at))
    } else {
        None
    }
}

/// Whether there is one word, this one.
pub(crate) fn is_only(words: &Words, text: &[u8]) -> bool
    ensures { result ≡ is_only text.now words.now }
{
    words.count() == 1 && words.get(0) == text
}

/// The place behind the first such word.
fn place_behind(words: &Words, text: &[u8]) -> Option<usize>
    ensures place { option_map (λ at. drop at words.now) result ≡ words_behind text.now words.now }
    ensures within { IfSome result (λ at. at ≤ length words.now) }
{
    for at in 0..words.count() {
        if words.get(at) == text {
            return Some(at + 1);
        }
    }
    None
}
