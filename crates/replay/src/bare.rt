//! A list in which no literal opens, and its cases, read word by word: as in [`crate::case`] and [`crate::cases`], but a
//! quote is a byte like any other. The lists of questions and answers are read so.

ghost use Rattle.std.specs.Prelude.{ℕ, ◌≡◌, ◌≤◌, length, None, Some, Ok, Err, false, true, is_ok, MatchOption, MatchResult};
ghost use Rattle.std.specs.Iterator.{at_most};
ghost use Rattle.replay.specs.Answers.{taken, refusal_numbers, written, behind_written, writing, behind_writing};
ghost use Rattle.replay.specs.Words.{first_word, behind_word, is_end, first_number, is_that, says, behind_numbers};
ghost use Rattle.replay.specs.Words.{begins, first_case, behind_case};
ghost use Rattle.replay.specs.Bare.{bare_ahead, Passed};

use crate::case::{Differs, only, refusal_numbers};
use crate::input::decode;
use crate::lent::is_untouched;
use definition::{LiteralState, Refusal};
use text::tokens;
use text::tokens::{Ahead, Cursor};

/// The first token of a list at a place or after it; the place is then the one behind it, or stays where there is none.
/// Each is read anew, with nothing said, so that no literal opens in a list.
fn pass(list: &[u8], at: &mut usize) -> Ahead
    requires { at.old ≤ length list.now }
    ensures { Passed list.now at.old result at.new }
{
    let mut behind = Cursor {
        at: *at,
        literals: LiteralState::Before(0),
    };
    let ahead = tokens::pass_token(list, &mut behind);
    match ahead {
        Ahead::Word(_) | Ahead::Stop(_) => *at = behind.at,
        Ahead::End(_) => {}
    }
    ahead
}

/// A case of such a list, and how far its words are read.
#[derive(Clone, Copy)]
pub struct BareCase<'a> {
    /// The list.
    pub list: &'a [u8],
    /// Where its next word is looked for.
    pub at: usize,
    ghost within: { at ≤ length list.now },
}

impl<'a> BareCase<'a> {
    /// The beginning of a list.
    pub fn first(list: &'a [u8]) -> BareCase<'a>
        ensures list { result.list ≡ list.entry }
        ensures at { result.at ≡ 0 }
    {
        BareCase { list, at: 0 }
    }

    /// The next word. Where the case has no more, it stays where it is.
    pub fn word(&mut self) -> Result<&'a [u8], Differs>
        ensures list { self.new.list ≡ self.old.list }
        ensures word { MatchResult result
            (λ w. first_word self.old.list.now (bare_ahead self.old.list.now self.old.at) ≡ Some w.now)
            (λ e. first_word self.old.list.now (bare_ahead self.old.list.now self.old.at) ≡ None) }
        ensures behind { bare_ahead self.old.list.now self.new.at
            ≡ behind_word (bare_ahead self.old.list.now self.old.at) }
    {
        let mut behind = self.at;
        match pass(self.list, &mut behind) {
            Ahead::Word(start) => {
                self.at = behind;
                Ok(&self.list[start..behind])
            }
            _ => Err(Differs),
        }
    }

    /// The next word as a number.
    pub fn take_number(&mut self) -> Result<u64, Differs>
        ensures list { self.new.list ≡ self.old.list }
        ensures number { MatchResult result
            (λ n. first_number self.old.list.now (bare_ahead self.old.list.now self.old.at) ≡ Some n)
            (λ e. first_number self.old.list.now (bare_ahead self.old.list.now self.old.at) ≡ None) }
        ensures behind { bare_ahead self.old.list.now self.new.at
            ≡ behind_word (bare_ahead self.old.list.now self.old.at) }
    {
        text::count_of(self.word()?).ok_or(Differs)
    }

    /// The next word as a number of a type.
    pub fn take<T: TryFrom<u64>>(&mut self) -> Result<T, Differs>
    where
        T::Error: Drop,
        ensures list { self.new.list ≡ self.old.list }
        ensures number { MatchResult result
            (λ t. (n : ℕ) × (first_number self.old.list.now (bare_ahead self.old.list.now self.old.at) ≡ Some n)
            × T.try_from_gives n (Ok t))
            (λ _. (n : ℕ) → first_number self.old.list.now (bare_ahead self.old.list.now self.old.at) ≡ Some n
            → (e : _) × T.try_from_gives n (Err e)) }
        ensures behind { bare_ahead self.old.list.now self.new.at
            ≡ behind_word (bare_ahead self.old.list.now self.old.at) }
    {
        T::try_from(self.take_number()?).map_err(|_| Differs)
    }

    /// Goes on where the next word is this number.
    fn number(&mut self, expected: u64) -> Result<(), Differs>
        ensures list { self.new.list ≡ self.old.list }
        ensures says { is_ok result
            ≡ is_that expected (first_number self.old.list.now (bare_ahead self.old.list.now self.old.at)) }
        ensures behind { bare_ahead self.old.list.now self.new.at
            ≡ behind_word (bare_ahead self.old.list.now self.old.at) }
    {
        only(self.take_number()? == expected)
    }

    /// Goes on where the next words are these numbers.
    pub fn numbers(&mut self, expected: &[u64]) -> Result<(), Differs>
        ensures list { self.new.list ≡ self.old.list }
        ensures says { is_ok result
            ≡ says self.old.list.now expected.now (bare_ahead self.old.list.now self.old.at) }
        ensures behind { bare_ahead self.old.list.now self.new.at
            ≡ behind_numbers self.old.list.now expected.now (bare_ahead self.old.list.now self.old.at) }
    {
        for n in expected {
            self.number(*n)?;
        }
        Ok(())
    }

    /// Goes on where the next words are these bytes, as numbers.
    pub fn bytes(&mut self, expected: &[u8]) -> Result<(), Differs>
        ensures list { self.new.list ≡ self.old.list }
        ensures says { is_ok result
            ≡ says self.old.list.now expected.now (bare_ahead self.old.list.now self.old.at) }
        ensures behind { bare_ahead self.old.list.now self.new.at
            ≡ behind_numbers self.old.list.now expected.now (bare_ahead self.old.list.now self.old.at) }
    {
        for b in expected {
            self.number(u64::from(*b))?;
        }
        Ok(())
    }

    /// Goes on where the next words are 0 and a refusal's number, position and needed length.
    pub fn refusal(&mut self, r: Refusal) -> Result<(), Differs>
        ensures list { self.new.list ≡ self.old.list }
        ensures says { is_ok result
            ≡ says self.old.list.now (refusal_numbers r) (bare_ahead self.old.list.now self.old.at) }
        ensures behind { bare_ahead self.old.list.now self.new.at
            ≡ behind_numbers self.old.list.now (refusal_numbers r) (bare_ahead self.old.list.now self.old.at) }
    {
        self.numbers(&refusal_numbers(r))
    }

    /// Takes the input that the next word stands for. So many bytes of the output are part of it as they stand, and it
    /// is written behind them; an input that has no room there differs.
    pub fn input<'b>(&mut self, out: &'b mut [u8], before: usize) -> Result<&'b [u8], Differs>
        ensures list { self.new.list ≡ self.old.list }
        ensures input { MatchResult result
            (λ s. taken (first_word self.old.list.now (bare_ahead self.old.list.now self.old.at)) before out.old
            ≡ Some s.now)
            (λ e. taken (first_word self.old.list.now (bare_ahead self.old.list.now self.old.at)) before out.old ≡ None) }
        ensures behind { bare_ahead self.old.list.now self.new.at
            ≡ behind_word (bare_ahead self.old.list.now self.old.at) }
    {
        let word = self.word()?;
        let n = decode(word, out, before)?;
        Ok(&out[..n])
    }

    /// Goes on where the next words are the length and the bytes of what was written to the start of an output, which
    /// is else untouched.
    pub fn written(&mut self, out: &[u8], n: usize) -> Result<(), Differs>
        ensures list { self.new.list ≡ self.old.list }
        ensures says { is_ok result
            ≡ written self.old.list.now (bare_ahead self.old.list.now self.old.at) n out.now }
        ensures behind { bare_ahead self.old.list.now self.new.at
            ≡ behind_written self.old.list.now (bare_ahead self.old.list.now self.old.at) n out.now }
    {
        if out.len() < n {
            return Err(Differs);
        }
        self.numbers(&[n as u64])?;
        self.bytes(&out[..n])?;
        only(is_untouched(out, n))
    }

    /// Goes on where the next words are the answer of a call that writes bytes: 1, their length and the bytes; or a
    /// refusal, and then the whole output is untouched.
    pub fn writing(&mut self, answer: Result<usize, Refusal>, out: &[u8]) -> Result<(), Differs>
        ensures list { self.new.list ≡ self.old.list }
        ensures says { is_ok result
            ≡ writing self.old.list.now (bare_ahead self.old.list.now self.old.at) answer out.now }
        ensures behind { bare_ahead self.old.list.now self.new.at
            ≡ behind_writing self.old.list.now (bare_ahead self.old.list.now self.old.at) answer out.now }
    {
        match answer {
            Ok(n) => {
                self.numbers(&[1])?;
                self.written(out, n)
            }
            Err(r) => {
                self.refusal(r)?;
                only(is_untouched(out, 0))
            }
        }
    }

    /// Goes on to the next word, over the periods that stand before it. `false` where there is none up to the list's
    /// end.
    pub fn begin(&mut self) -> bool
        ensures list { self.new.list ≡ self.old.list }
        ensures word { result ≡ begins (first_case (bare_ahead self.old.list.now self.old.at)) }
        ensures behind { bare_ahead self.old.list.now self.new.at
            ≡ first_case (bare_ahead self.old.list.now self.old.at) }
    {
        loop {
            let mut behind = self.at;
            match pass(self.list, &mut behind) {
                Ahead::Word(_) => return true,
                Ahead::Stop(_) => self.at = behind,
                Ahead::End(_) => return false,
            }
        }
    }

    /// Goes on behind the period that ends the case, or to the list's end.
    pub fn leave(&mut self)
        ensures list { self.new.list ≡ self.old.list }
        ensures behind { bare_ahead self.old.list.now self.new.at
            ≡ behind_case (bare_ahead self.old.list.now self.old.at) }
    {
        while let Ahead::Word(_) = pass(self.list, &mut self.at) {}
    }

    /// Whether the case ends here.
    pub fn end(self) -> Result<(), Differs>
        ensures { is_ok result ≡ is_end (bare_ahead self.entry.list.now self.entry.at) }
    {
        let mut behind = self.at;
        match pass(self.list, &mut behind) {
            Ahead::Stop(_) => Ok(()),
            _ => Err(Differs),
        }
    }
}

/// The cases of such a list that are still to come.
#[derive(Clone, Copy)]
pub struct BareCases<'a> {
    /// Where they begin.
    pub rest: BareCase<'a>,
}

impl<'a> BareCases<'a> {
    /// All cases of a list.
    pub fn of(list: &'a [u8]) -> BareCases<'a>
        ensures list { result.rest.list ≡ list.entry }
        ensures at { result.rest.at ≡ 0 }
    {
        BareCases {
            rest: BareCase::first(list),
        }
    }
}

impl<'a> Iterator for BareCases<'a> {
    type Item = BareCase<'a>;

    ghost next_gives = { λ s r t. MatchOption r
        ((begins (first_case (bare_ahead s.rest.list.now s.rest.at)) ≡ false) × (t ≡ s))
        (λ c. (begins (first_case (bare_ahead s.rest.list.now s.rest.at)) ≡ true)
        × (c.list ≡ s.rest.list)
        × (bare_ahead c.list.now c.at ≡ first_case (bare_ahead s.rest.list.now s.rest.at))
        × (t.rest.list ≡ s.rest.list)
        × (bare_ahead t.rest.list.now t.rest.at ≡ behind_case (bare_ahead c.list.now c.at))) };

    ghost remaining = { λ s. at_most (length (bare_ahead s.rest.list.now s.rest.at)) };

    #[tactic(auto, using(crate::proofs::Steps::shorter))]
    fn next(&mut self) -> Option<BareCase<'a>> {
        let mut case = self.rest;
        if !case.begin() {
            return None;
        }
        self.rest = case;
        self.rest.leave();
        Some(case)
    }
}
