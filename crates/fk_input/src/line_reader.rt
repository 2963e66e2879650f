ghost use Rattle.std.specs.Prelude.{◌≡◌, ◌+◌, ◌<◌, ◌≤◌, [], ◌∷◌, ◌++◌, length, MatchOption, IfOk, OnErr, IfSome, IfNone, false, true};
ghost use Rattle.fk_host.specs.Count.{HasCause};
ghost use Rattle.fk_host.specs.Stream.{Takes};
ghost use Rattle.fk_input.specs.Lines.{line_limit, input_limit};

use crate::ahead::Ahead;
use fk_base::Failed;
use fk_host::Source;
use std::marker::Model;

const MAX_LINE: usize = 1600;

const MAX_INPUT: u64 = 67108864;

/// What came of the next line.
#[derive(Clone, Copy, Debug, PartialEq, Eq)]
pub enum NextLine {
    /// It was read, and `line` has it.
    Line,
    /// There is none.
    End,
    /// It has more than 1600 bytes.
    LongLine,
    /// The input passes 67108864 bytes in it.
    LongInput,
    /// The source failed, before any byte that it gave showed a line or an input that is too long. The bytes of the line that had
    /// come are lost.
    Failed,
}

/// Reads the lines of an input one by one. Once the source has answered that it is at its end it is read no more.
#[derive(Drop)]
pub struct LineReader {
    ahead: Ahead,
    line: [u8; MAX_LINE],
    len: usize,
    offset: u64,
    ended: bool,
}

impl Model for LineReader {
    ghost use Rattle.std.specs.Prelude.{◌≡◌, ◌+◌, ◌≤◌, take, length, true, []};
    ghost use Rattle.fk_input.specs.Lines.{line_limit, input_limit};
    ghost use Rattle.fk_input.specs.Reading.{Reading};

    ghost Value = { Reading };

    ghost view = { λ r. record { pending = r.ahead; line = take r.len r.line; offset = r.offset; ended = r.ended } };

    ghost invariant = { λ r. (r.len ≤ line_limit)
        × (r.offset + length r.ahead ≤ input_limit + 1)
        × (r.ended ≡ true → r.ahead ≡ []) };
}

impl LineReader {
    ghost use Rattle.fk_input.specs.Private.{UsesUp, Places};
    ghost use Rattle.fk_input.specs.Reading.{rest, Says, IsCaused, IsBounded};

    pub fn new() -> Self
        ensures { result ≡ record { pending = []; line = []; offset = 0; ended = false } }
    {
        LineReader {
            ahead: Ahead::new(),
            line: [0; MAX_LINE],
            len: 0,
            offset: 0,
            ended: false,
        }
    }

    /// The line that was read last, without its line feed.
    pub fn line(&self) -> &[u8]
        ensures { result.now ≡ self.now.line }
    {
        &self.line[..self.len]
    }

    /// Reads the next line. At most 67108865 bytes are taken from the source, in all calls together.
    pub fn next<I: Source>(&mut self, input: &mut I) -> NextLine
        ensures says { Says result self.old self.new (rest self.old (I.left input.old)) (rest self.new (I.left input.new)) }
        ensures cause { IsCaused result (I.faults input.old) (I.faults input.new) }
        ensures bound { IsBounded self.new }
    {
        self.len = 0;
        if self.ended {
            return NextLine::End;
        }
        if self.offset > MAX_INPUT {
            return NextLine::LongInput;
        }
        loop {
            match self.next_byte(input) {
                Ok(Some(b)) => {
                    if let Some(answer) = self.place(b) {
                        return answer;
                    }
                }
                Ok(None) if self.len == 0 => return NextLine::End,
                Ok(None) => return NextLine::Line,
                Err(Failed) => {
                    self.len = 0;
                    return NextLine::Failed;
                }
            }
        }
    }

    // Uses up the next byte of the input, where there is one.
    fn next_byte<I: Source>(&mut self, input: &mut I) -> Result<Option<u8>, Failed>
        requires unended { self.old.ended ≡ false }
        requires within { self.old.offset ≤ input_limit }
        ensures byte { IfOk result (λ next. IfSome next (λ b. UsesUp (b ∷ []) self.old self.new (I.left input.old) (I.left input.new) × (self.new.ended ≡ false))) }
        ensures end { IfOk result (λ next. IfNone next (UsesUp [] self.old self.new (I.left input.old) (I.left input.new) × (self.new.ended ≡ true)
            × (self.old.pending ≡ []) × (self.new.pending ≡ []) × IfSome (I.left input.old) (λ bytes. bytes ≡ []))) }
        ensures failed { OnErr result (UsesUp [] self.old self.new (I.left input.old) (I.left input.new) × (self.new.ended ≡ false) × (self.new.pending ≡ [])) }
        ensures cause { HasCause (I.faults input.old) (I.faults input.new) result }
        ensures bound { IsBounded self.new }
    {
        if let Some(b) = self.ahead.pop() {
            self.offset += 1;
            return Ok(Some(b));
        }
        self.ahead
            .fill(input, (MAX_INPUT + 1 - self.offset) as usize)?;
        let next = self.ahead.pop();
        match next {
            Some(_) => self.offset += 1,
            None => self.ended = true,
        }
        Ok(next)
    }

    // Puts a byte that was used up to the line, or says why the line ends with it.
    fn place(&mut self, b: u8) -> Option<NextLine>
        ensures places { Places result self.old self.new b }
        ensures bound { IsBounded self.new }
    {
        if self.offset > MAX_INPUT {
            self.len = 0;
            return Some(NextLine::LongInput);
        }
        if b == b'\n' {
            return Some(NextLine::Line);
        }
        if self.len == MAX_LINE {
            self.len = 0;
            return Some(NextLine::LongLine);
        }
        self.line[self.len] = b;
        self.len += 1;
        None
    }
}
