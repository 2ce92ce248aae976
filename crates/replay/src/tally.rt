//! How many cases agree.

ghost use Rattle.std.specs.Prelude.{◌≡◌, ◌≤◌, ◌<◌, ◌+◌, nat_lt, if◌then◌else◌, Some, None};
ghost use Rattle.replay.specs.Tallies.{counted, agreeing, first_of, printed};

use std::fmt;

/// How many cases there were, at most a million, how many agreed, and the first that differed, counted from 1.
#[derive(Clone, Copy)]
pub struct Tally {
    /// How many cases there were.
    pub cases: u64,
    /// How many of them agreed.
    pub agree: u64,
    /// The first that differed.
    pub first_difference: Option<u64>,
    ghost few: { cases ≤ 1000000 },
    ghost part: { agree ≤ cases },
}

/// The most cases that are counted.
const MOST_CASES: u64 = 1_000_000;

impl Tally {
    /// No case yet.
    pub fn new() -> Tally
        ensures cases { result.cases ≡ 0 }
        ensures agree { result.agree ≡ 0 }
        ensures first { result.first_difference ≡ None }
    {
        Tally {
            cases: 0,
            agree: 0,
            first_difference: None,
        }
    }

    /// One case more, up to the most that are counted.
    pub fn add(&mut self, agrees: bool)
        ensures cases { self.new.cases ≡ counted self.old.cases }
        ensures agree { self.new.agree ≡ agreeing self.old.cases self.old.agree agrees }
        ensures first { self.new.first_difference ≡ first_of self.old.cases self.old.first_difference agrees }
    {
        if self.cases == MOST_CASES {
            return;
        }
        self.cases += 1;
        if agrees {
            self.agree += 1;
        } else {
            self.first_difference = self.first_difference.or(Some(self.cases));
        }
    }

    /// How many cases differed.
    pub fn differing(self) -> u64
        ensures { result + self.agree ≡ self.cases }
    {
        self.cases - self.agree
    }
}

impl fmt::Display for Tally {
    ghost output = { λ t. Some (printed t.agree t.cases) };

    fn fmt<W: fmt::Write>(&self, f: &mut fmt::Formatter<W>) -> fmt::Result {
        write!(f, "{} agree of {}", self.agree, self.cases)
    }
}
