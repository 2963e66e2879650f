ghost use Rattle.std.specs.Prelude.{◌≡◌, ◌≢◌, ◌==◌, ◌∷◌, ◌++◌, ◌↔◌, All, IsTrue, MatchOption, IfSome, IfNone, position};
ghost use Rattle.std.specs.List.{list_all};
ghost use Rattle.fk_turn.specs.Rules.{turn_of};
ghost use Rattle.fk_trial.specs.Lines.{is_visible, IsNoTurnLine, IsTurnLine, IsVisibleText};

use fk_base::{read_ip, read_moment};
use fk_turn::{FeedInput, FeedTurn};

/// Reads a line of the input, without its line feed, as the turn that it says.
pub(crate) fn read_turn(line: &[u8]) -> Option<FeedTurn<'_>>
    ensures turn { IfSome result (λ turn. IsTurnLine line.now (turn_of turn)) }
    ensures none { IfNone result (IsNoTurnLine line.now) }
{
    match cut_at_space(line) {
        None => {
            let moment = read_moment(line).ok()?;
            Some(FeedTurn {
                moment,
                input: FeedInput::Quiet,
            })
        }
        Some((moment, rest)) => {
            let moment = read_moment(moment).ok()?;
            let (source, bytes) = cut_at_space(rest)?;
            let source = read_ip(source).ok()?;
            if !is_visible_text(bytes) {
                return None;
            }
            Some(FeedTurn {
                moment,
                input: FeedInput::Datagram { source, bytes },
            })
        }
    }
}

/// The parts before and behind the first space.
fn cut_at_space(bytes: &[u8]) -> Option<(&[u8], &[u8])>
    ensures { MatchOption result
        (All (λ byte. byte ≢ 32) bytes.now)
        (λ parts. All (λ byte. byte ≢ 32) parts.0.now × (bytes.now ≡ parts.0.now ++ 32 ∷ parts.1.now)) }
{
    let at = first_space(bytes)?;
    Some((&bytes[..at], &bytes[at + 1..]))
}

/// The place of the first space.
fn first_space(bytes: &[u8]) -> Option<usize>
    ensures { result ≡ position (λ byte. byte == 32) bytes.now }
{
    bytes.iter().position(|byte| *byte == b' ')
}

fn is_visible_text(text: &[u8]) -> bool
    ensures { IsTrue result ↔ IsVisibleText text.now }
{
    !text.is_empty() && is_all_visible(text)
}

fn is_all_visible(text: &[u8]) -> bool
    ensures { result ≡ list_all is_visible text.now }
{
    text.iter().all(u8::is_ascii_graphic)
}
