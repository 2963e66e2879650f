ghost use Rattle.std.specs.Prelude.{◌≡◌, ◌+◌, ◌*◌, ◌<◌, ◌≤◌, ◌^◌, [], ◌++◌, length, take, OnErr, OnOk};
ghost use Rattle.fk_base.specs.PairText.{pair_text};
ghost use Rattle.fk_base.specs.Pairs.{pairs_text};

use crate::pair_text::put_pair_before;
use crate::short_text::ShortText;
use crate::{Bytes, NoMemory, Pair, Pairs};
use std::marker::Model;

/// The length of the longest text: 16 pairs of 9 bytes and the 15 commas between them.
pub const PAIRS_TEXT_ROOM: usize = 159;

/// Appends the pairs' one text, as `tcp/22,udp/53`.
pub fn put_pairs(pairs: &Pairs, out: &mut Bytes) -> Result<(), NoMemory>
    ensures ok { OnOk result (out.new ≡ out.old ++ pairs_text pairs.now) }
    ensures err { OnErr result (out.new ≡ out.old) }
{
    out.append(text_of_pairs(pairs).as_slice())
}

fn text_of_pairs(pairs: &Pairs) -> PairsText
    ensures { result ≡ pairs_text pairs.now }
{
    let count = pairs.count();
    let mut text = PairsText::new();
    put_one(pairs.get(0), &mut text);
    for at in 1..count {
        text.put(b",");
        put_one(pairs.get(at), &mut text);
    }
    text
}

/// Puts a pair's text behind the text.
fn put_one(pair: Pair, text: &mut PairsText)
    requires { length text.old + 9 ≤ PAIRS_TEXT_ROOM }
    ensures text { text.new ≡ text.old ++ pair_text pair }
    ensures room { length text.new ≤ length text.old + 9 }
{
    let mut short = ShortText::new();
    put_pair_before(pair, &mut short);
    text.put(short.as_slice());
}

/// A text of at most 159 bytes that takes no memory.
#[derive(Drop)]
struct PairsText {
    room: [u8; 159],
    len: usize,
}

impl Model for PairsText {
    ghost use Rattle.std.specs.Prelude.{List, ℕ, ◌≤◌, take};

    ghost Value = { List ℕ };

    ghost view = { λ t. take t.len t.room };

    ghost invariant = { λ t. t.len ≤ 159 };
}

impl PairsText {
    fn new() -> Self
        ensures { result ≡ [] }
    {
        PairsText {
            room: [0; 159],
            len: 0,
        }
    }

    fn as_slice(&self) -> &[u8]
        ensures { result.now ≡ self.now }
    {
        &self.room[..self.len]
    }

    /// Puts the bytes behind the text.
    fn put(&mut self, bytes: &[u8])
        requires { length self.old + length bytes.now ≤ PAIRS_TEXT_ROOM }
        ensures { self.new ≡ self.old ++ bytes.now }
    {
        let end = self.len + bytes.len();
        self.room[self.len..end].copy_from_slice(bytes);
        self.len = end;
    }
}
