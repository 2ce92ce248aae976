//! The cases of a list, one after the other.

ghost use Rattle.std.specs.Prelude.{◌≡◌, length, false, true, MatchOption};
ghost use Rattle.std.specs.Iterator.{at_most};
ghost use Rattle.text.specs.Tokens.{at_start};
ghost use Rattle.replay.specs.Words.{ahead, begins, first_case, behind_case};

use crate::case::Case;

/// The cases of a list that are still to come.
#[derive(Clone, Copy)]
pub struct Cases<'a> {
    /// Where they begin.
    pub rest: Case<'a>,
}

impl<'a> Cases<'a> {
    /// All cases of a list.
    pub fn of(list: &'a [u8]) -> Cases<'a>
        ensures list { result.rest.list ≡ list.entry }
        ensures cursor { result.rest.cursor ≡ at_start }
    {
        Cases {
            rest: Case::first(list),
        }
    }
}

impl<'a> Iterator for Cases<'a> {
    type Item = Case<'a>;

    ghost next_gives = { λ s r t. MatchOption r
        ((begins (first_case (ahead s.rest.list.now s.rest.cursor)) ≡ false) × (t ≡ s))
        (λ c. (begins (first_case (ahead s.rest.list.now s.rest.cursor)) ≡ true)
        × (c.list ≡ s.rest.list)
        × (ahead c.list.now c.cursor ≡ first_case (ahead s.rest.list.now s.rest.cursor))
        × (t.rest.list ≡ s.rest.list)
        × (ahead t.rest.list.now t.rest.cursor ≡ behind_case (ahead c.list.now c.cursor))) };

    ghost remaining = { λ s. at_most (length (ahead s.rest.list.now s.rest.cursor)) };

    #[tactic(auto, using(crate::proofs::Steps::shorter))]
    fn next(&mut self) -> Option<Case<'a>> {
        let mut case = self.rest;
        if !case.begin() {
            return None;
        }
        self.rest = case;
        self.rest.leave();
        Some(case)
    }
}
