ghost use Rattle.std.specs.Prelude.{◌≤◌, length};

/// The rows of a text, one after the other, each with the number of its first line. Empty lines and comments are left out.
#[derive(Drop)]
pub(crate) struct RowCut<'a> {
    rest: &'a [u8],
    line: u64,
}

impl<'a> RowCut<'a> {
    pub(crate) fn new(text: &'a [u8]) -> Self {
        RowCut {
            rest: text,
            line: 1,
        }
    }

    /// Takes the next row, without its last line feed.
    pub(crate) fn next(&mut self) -> Option<(u64, &'a [u8])> {
        for _ in 0..self.rest.len() {
            let number = self.line;
            let row = self.take_row();
            if !is_skipped(row) {
                return Some((number, row));
            }
        }
        None
    }

    /// Takes a line with those behind it that begin with a blank.
    fn take_row(&mut self) -> &'a [u8] {
        let len = row_len(self.rest);
        let row = &self.rest[..len];
        self.rest = &self.rest[len..];
        self.line = self.line.saturating_add(count_feeds(row));
        match row.split_last() {
            Some((b'\n', front)) => front,
            _ => row,
        }
    }
}

/// How many bytes the row at the front has, with its last line feed.
fn row_len(text: &[u8]) -> usize
    ensures { result ≤ length text.now }
{
    for (at, byte) in text.iter().enumerate() {
        if *byte == b'\n' && text.get(at + 1) != Some(&b' ') {
            return at + 1;
        }
    }
    text.len()
}

fn count_feeds(text: &[u8]) -> u64 {
    let mut count = 0u64;
    for byte in text {
        if *byte == b'\n' {
            count = count.saturating_add(1);
        }
    }
    count
}

fn is_skipped(row: &[u8]) -> bool {
    row.is_empty() || row.starts_with(b"#")
}
