//! A list and its cases, read word by word, with a copybook's literals.

ghost use Rattle.std.specs.Prelude.{ℕ, ◌≡◌, ◌≤◌, length, None, Some, Ok, Err, is_ok, MatchResult};
ghost use Rattle.text.specs.Tokens.{at_start};
ghost use Rattle.replay.specs.Answers.{taken, refusal_numbers, written, behind_written, writing, behind_writing};
ghost use Rattle.replay.specs.Words.{ahead, first_word, behind_word, is_end, first_number, is_that, says, behind_numbers};
ghost use Rattle.replay.specs.Words.{begins, first_case, behind_case};

use crate::input::decode;
use crate::lent::is_untouched;
use definition::Refusal;
use text::tokens;
use text::tokens::{Ahead, Cursor};

/// Some word of a case is not the expected one.
#[derive(Clone, Copy)]
pub struct Differs;

/// Goes on where a test holds.
pub fn only(test: bool) -> Result<(), Differs>
    ensures { is_ok result ≡ test }
{
    if test { Ok(()) } else { Err(Differs) }
}

/// What a list says of a refusal: 0, its number, its position and the needed length.
pub(crate) fn refusal_numbers(r: Refusal) -> [u64; 4]
    ensures { result ≡ refusal_numbers r }
{
    [
        0,
        u64::from(r.number()),
        r.position() as u64,
        r.needed() as u64,
    ]
}

/// A case of a list, and how far its words are read.
#[derive(Clone, Copy)]
pub struct Case<'a> {
    /// The list.
    pub list: &'a [u8],
    /// Where its next word is looked for.
    pub cursor: Cursor,
    ghost within: { cursor.at ≤ length list.now },
}

impl<'a> Case<'a> {
    /// The beginning of a list.
    pub fn first(list: &'a [u8]) -> Case<'a>
        ensures list { result.list ≡ list.entry }
        ensures cursor { result.cursor ≡ at_start }
    {
        Case {
            list,
            cursor: Cursor::at_start(),
        }
    }

    /// The next word. Where the case has no more, it stays where it is.
    #[tactic(auto, unfolding(crate::specs::Words::ahead))]
    pub fn word(&mut self) -> Result<&'a [u8], Differs>
        ensures list { self.new.list ≡ self.old.list }
        ensures word { MatchResult result
            (λ w. first_word self.old.list.now (ahead self.old.list.now self.old.cursor) ≡ Some w.now)
            (λ e. first_word self.old.list.now (ahead self.old.list.now self.old.cursor) ≡ None) }
        ensures behind { ahead self.old.list.now self.new.cursor
            ≡ behind_word (ahead self.old.list.now self.old.cursor) }
    {
        let mut behind = self.cursor;
        match tokens::pass_token(self.list, &mut behind) {
            Ahead::Word(start) => {
                self.cursor = behind;
                Ok(&self.list[start..behind.at])
            }
            _ => Err(Differs),
        }
    }

    /// The next word as a number.
    pub fn take_number(&mut self) -> Result<u64, Differs>
        ensures list { self.new.list ≡ self.old.list }
        ensures number { MatchResult result
            (λ n. first_number self.old.list.now (ahead self.old.list.now self.old.cursor) ≡ Some n)
            (λ e. first_number self.old.list.now (ahead self.old.list.now self.old.cursor) ≡ None) }
        ensures behind { ahead self.old.list.now self.new.cursor
            ≡ behind_word (ahead self.old.list.now self.old.cursor) }
    {
        text::count_of(self.word()?).ok_or(Differs)
    }

    /// The next word as a number of a type.
    pub fn take<T: TryFrom<u64>>(&mut self) -> Result<T, Differs>
    where
        T::Error: Drop,
        ensures list { self.new.list ≡ self.old.list }
        ensures number { MatchResult result
            (λ t. (n : ℕ) × (first_number self.old.list.now (ahead self.old.list.now self.old.cursor) ≡ Some n)
            × T.try_from_gives n (Ok t))
            (λ _. (n : ℕ) → first_number self.old.list.now (ahead self.old.list.now self.old.cursor) ≡ Some n
            → (e : _) × T.try_from_gives n (Err e)) }
        ensures behind { ahead self.old.list.now self.new.cursor
            ≡ behind_word (ahead self.old.list.now self.old.cursor) }
    {
        T::try_from(self.take_number()?).map_err(|_| Differs)
    }

    /// Goes on where the next word is this number.
    fn number(&mut self, expected: u64) -> Result<(), Differs>
        ensures list { self.new.list ≡ self.old.list }
        ensures says { is_ok result
            ≡ is_that expected (first_number self.old.list.now (ahead self.old.list.now self.old.cursor)) }
        ensures behind { ahead self.old.list.now self.new.cursor
            ≡ behind_word (ahead self.old.list.now self.old.cursor) }
    {
        only(self.take_number()? == expected)
    }

    /// Goes on where the next words are these numbers.
    pub fn numbers(&mut self, expected: &[u64]) -> Result<(), Differs>
        ensures list { self.new.list ≡ self.old.list }
        ensures says { is_ok result
            ≡ says self.old.list.now expected.now (ahead self.old.list.now self.old.cursor) }
        ensures behind { ahead self.old.list.now self.new.cursor
            ≡ behind_numbers self.old.list.now expected.now (ahead self.old.list.now self.old.cursor) }
    {
        for n in expected {
            self.number(*n)?;
        }
        Ok(())
    }

    /// Goes on where the next words are these bytes, as numbers.
    pub fn bytes(&mut self, expected: &[u8]) -> Result<(), Differs>
        ensures list { self.new.list ≡ self.old.list }
        ensures says { is_ok result
            ≡ says self.old.list.now expected.now (ahead self.old.list.now self.old.cursor) }
        ensures behind { ahead self.old.list.now self.new.cursor
            ≡ behind_numbers self.old.list.now expected.now (ahead self.old.list.now self.old.cursor) }
    {
        for b in expected {
            self.number(u64::from(*b))?;
        }
        Ok(())
    }

    /// Goes on where the next words are 0 and a refusal's number, position and needed length.
    pub fn refusal(&mut self, r: Refusal) -> Result<(), Differs>
        ensures list { self.new.list ≡ self.old.list }
        ensures says { is_ok result
            ≡ says self.old.list.now (refusal_numbers r) (ahead self.old.list.now self.old.cursor) }
        ensures behind { ahead self.old.list.now self.new.cursor
            ≡ behind_numbers self.old.list.now (refusal_numbers r) (ahead self.old.list.now self.old.cursor) }
    {
        self.numbers(&refusal_numbers(r))
    }

    /// Takes the input that the next word stands for. So many bytes of the output are part of it as they stand, and it
    /// is written behind them; an input that has no room there differs.
    pub fn input<'b>(&mut self, out: &'b mut [u8], before: usize) -> Result<&'b [u8], Differs>
        ensures list { self.new.list ≡ self.old.list }
        ensures input { MatchResult result
            (λ s. taken (first_word self.old.list.now (ahead self.old.list.now self.old.cursor)) before out.old
            ≡ Some s.now)
            (λ e. taken (first_word self.old.list.now (ahead self.old.list.now self.old.cursor)) before out.old ≡ None) }
        ensures behind { ahead self.old.list.now self.new.cursor
            ≡ behind_word (ahead self.old.list.now self.old.cursor) }
    {
        let word = self.word()?;
        let n = decode(word, out, before)?;
        Ok(&out[..n])
    }

    /// Goes on where the next words are the length and the bytes of what was written to the start of an output, which
    /// is else untouched.
    pub fn written(&mut self, out: &[u8], n: usize) -> Result<(), Differs>
        ensures list { self.new.list ≡ self.old.list }
        ensures says { is_ok result
            ≡ written self.old.list.now (ahead self.old.list.now self.old.cursor) n out.now }
        ensures behind { ahead self.old.list.now self.new.cursor
            ≡ behind_written self.old.list.now (ahead self.old.list.now self.old.cursor) n out.now }
    {
        if out.len() < n {
            return Err(Differs);
        }
        self.numbers(&[n as u64])?;
        self.bytes(&out[..n])?;
        only(is_untouched(out, n))
    }

    /// Goes on where the next words are the answer of a call that writes bytes: 1, their length and the bytes; or a
    /// refusal, and then the whole output is untouched.
    pub fn writing(&mut self, answer: Result<usize, Refusal>, out: &[u8]) -> Result<(), Differs>
        ensures list { self.new.list ≡ self.old.list }
        ensures says { is_ok result
            ≡ writing self.old.list.now (ahead self.old.list.now self.old.cursor) answer out.now }
        ensures behind { ahead self.old.list.now self.new.cursor
            ≡ behind_writing self.old.list.now (ahead self.old.list.now self.old.cursor) answer out.now }
    {
        match answer {
            Ok(n) => {
                self.numbers(&[1])?;
                self.written(out, n)
            }
            Err(r) => {
                self.refusal(r)?;
                only(is_untouched(out, 0))
            }
        }
    }

    /// Goes on to the next word, over the periods that stand before it. `false` where there is none up to the list's
    /// end, or to a line with a literal left open.
    #[tactic(auto, unfolding(crate::specs::Words::ahead))]
    pub fn begin(&mut self) -> bool
        ensures list { self.new.list ≡ self.old.list }
        ensures word { result ≡ begins (first_case (ahead self.old.list.now self.old.cursor)) }
        ensures behind { ahead self.old.list.now self.new.cursor
            ≡ first_case (ahead self.old.list.now self.old.cursor) }
    {
        loop {
            let mut behind = self.cursor;
            match tokens::pass_token(self.list, &mut behind) {
                Ahead::Word(_) => return true,
                Ahead::Stop(_) => self.cursor = behind,
                Ahead::End(_) => return false,
            }
        }
    }

    /// Goes on behind the period that ends the case, or to the list's end, or to a line with a literal left open.
    #[tactic(auto, unfolding(crate::specs::Words::ahead))]
    pub fn leave(&mut self)
        ensures list { self.new.list ≡ self.old.list }
        ensures behind { ahead self.old.list.now self.new.cursor
            ≡ behind_case (ahead self.old.list.now self.old.cursor) }
    {
        while let Ahead::Word(_) = tokens::pass_token(self.list, &mut self.cursor) {}
    }

    /// Whether the case ends here.
    #[tactic(auto, unfolding(crate::specs::Words::ahead))]
    pub fn end(self) -> Result<(), Differs>
        ensures { is_ok result ≡ is_end (ahead self.entry.list.now self.entry.cursor) }
    {
        let mut behind = self.cursor;
        match tokens::pass_token(self.list, &mut behind) {
            Ahead::Stop(_) => Ok(()),
            _ => Err(Differs),
        }
    }
}
