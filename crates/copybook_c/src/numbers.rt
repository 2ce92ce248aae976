//! How the answers become numbers for C, and what numbers come in: a usage, and the numbers that a call returns and
//! writes to a lent slice (`specs/Numbers`).

ghost use Rattle.std.specs.Prelude.{ℕ, ◌-◌, ◌≡◌, ◌<◌, ◌≤◌, List, [], ◌∷◌, replicate, if◌then◌else◌};
ghost use Rattle.std.proofs.Common.{rules};
ghost use Rattle.definition.specs.Refusals.{refusal_position, refusal_needed};
ghost use Rattle.rows.specs.Kinds.{sign_at};
ghost use Rattle.rows.specs.Usages.{usage_at, clause_at};
ghost use Rattle.copybook_c.specs.Numbers.{no_usage, no_sign, returned, answer_numbers, answered};
ghost use Rattle.copybook_c.specs.Numbers.{count_numbers, pictured_numbers, owned_numbers, chosen_numbers, column_numbers};

use definition::{Extract, KeyColumn, Owner, Pictured, Refusal, SignKind, Usage};
use rows::kinds;
use rows::kinds::{Coded, KindNumbers};

// ---------------------------------------------------------------- what comes in

/// Whether no usage has this number: 0 to 2 are DISPLAY, COMP-3 and COMP.
pub fn no_usage(n: u8) -> bool
    ensures { result ≡ no_usage n }
{
    2 < n
}

/// The usage of this number, or none.
pub fn usage_of(n: u8) -> Option<Usage>
    ensures { result ≡ (if no_usage n then None else Some (usage_at n)) }
{
    if no_usage(n) {
        None
    } else {
        Some(Usage::at(n))
    }
}

/// What SIGN says by this number, or none: 0 says nothing, and 1 to 4 are the signs.
pub fn sign_of(n: u8) -> Option<Option<SignKind>>
    ensures { result ≡ (if no_sign n then None else Some (clause_at sign_at n)) }
{
    match n {
        0..=4 => Some(kinds::clause_at(n)),
        _ => None,
    }
}

// ---------------------------------------------------------------- what goes out

/// What a call answers, as the `N` numbers that it writes for C.
pub trait AsNumbers<const N: usize>: Copy {
    ghost list: { Self → List ℕ };

    /// The numbers.
    fn numbers(self) -> [u64; N]
        ensures { result ≡ list self };

    // They have room for a refusal's position and needed length, and in memory.
    ghost some: { 2 ≤ N };

    ghost few: { N < 256 };
}

// The answer of a call that writes bytes: how many, and 0.
impl AsNumbers<2> for usize {
    ghost list = { count_numbers };

    ghost some = { Prim.search rules };

    ghost few = { Prim.search rules };

    fn numbers(self) -> [u64; 2] {
        [self as u64, 0]
    }
}

// The answer to a picture: kind, width and the numbers of the kind.
impl AsNumbers<7> for Pictured {
    ghost list = { pictured_numbers };

    ghost some = { Prim.search rules };

    ghost few = { Prim.search rules };

    fn numbers(self) -> [u64; 7] {
        let k = KindNumbers::from(self.kind);
        [
            u64::from(k.kind),
            self.width as u64,
            u64::from(k.signed),
            u64::from(k.sign),
            u64::from(k.precision),
            u64::from(k.scale),
            u64::from(k.storage),
        ]
    }
}

// The answer to a byte.
impl AsNumbers<4> for Owner {
    ghost list = { owned_numbers };

    ghost some = { Prim.search rules };

    ghost few = { Prim.search rules };

    fn numbers(self) -> [u64; 4] {
        match self {
            Owner::Piece {
                entry,
                first,
                place,
            } => [0, entry as u64, first as u64, place as u64],
            Owner::Slack { entry } => [1, entry as u64, 0, 0],
        }
    }
}

// An extract.
impl AsNumbers<4> for Extract {
    ghost list = { chosen_numbers };

    ghost some = { Prim.search rules };

    ghost few = { Prim.search rules };

    fn numbers(self) -> [u64; 4] {
        [
            self.subset as u64,
            self.weight as u64,
            self.examined as u64,
            self.off as u64,
        ]
    }
}

// The answer to a set of copybooks.
impl AsNumbers<2> for KeyColumn {
    ghost list = { column_numbers };

    ghost some = { Prim.search rules };

    ghost few = { Prim.search rules };

    fn numbers(self) -> [u64; 2] {
        [self.offset as u64, self.width as u64]
    }
}

/// A refusal as the numbers of an answer: position, needed length and zeros.
#[tactic(auto, using(crate::proofs::Answering::answer_steps))]
fn refused<const N: usize, T: AsNumbers<N>>(r: Refusal) -> [u64; N]
    ensures { result ≡ refusal_position r ∷ refusal_needed r ∷ replicate (N - 2) 0 }
{
    let mut numbers = [0; N];
    numbers[0] = r.position() as u64;
    numbers[1] = r.needed() as u64;
    numbers
}

/// Writes the numbers, where there is room for them.
#[tactic(auto, using(crate::proofs::Answering::answer_steps))]
fn put(answer: &mut [u64], numbers: &[u64])
    ensures { answer.new ≡ answered numbers.now answer.old }
{
    if numbers.len() <= answer.len() {
        answer[..numbers.len()].copy_from_slice(numbers);
    }
}

/// Hands on an answer: returns 0 or the number of its refusal, and writes its numbers.
pub fn hand_on<const N: usize, T: AsNumbers<N>>(a: Result<T, Refusal>, answer: &mut [u64]) -> u32
    ensures value { result ≡ returned a }
    ensures answer_after { answer.new ≡ answered (answer_numbers N T.list a) answer.old }
{
    match a {
        Ok(x) => {
            put(answer, &x.numbers());
            0
        }
        Err(r) => {
            put(answer, &refused::<N, T>(r));
            r.number()
        }
    }
}
