ghost use Rattle.std.specs.Prelude.{◌≡◌, ◌↔◌, ℕ, List, MatchOption, false, true};
ghost use Rattle.fk_base.specs.Net.{IsNetText, SpellsNet};
ghost use Rattle.fk_values.specs.Values.{is_net_text};

use fk_base::{Net4, read_net};

/// The net that the text writes.
pub fn find_net(text: &[u8]) -> Option<Net4>
    ensures { MatchOption result (is_net_text text.now ≡ false) (λ net. (is_net_text text.now ≡ true) × SpellsNet text.now net) }
{
    match read_net(text) {
        Ok(net) => Some(net),
        Err(_) => None,
    }
}

/// A text is that of a net exactly where it has the parts of one.
pub fn nets_are_found()
    ensures { (text : List ℕ) → (is_net_text text ≡ true) ↔ IsNetText text }
{}
