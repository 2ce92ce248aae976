//! One key for a family of records: the copybooks of a set are read one after the other, and the key of the first is
//! held against those of the others. Of the first, its column is kept; its text stays lent.

ghost use Rattle.std.specs.Prelude.{true, ◌≤◌, ◌≡◌, [], ◌∷◌, eqb, length, MatchOption};
ghost use Rattle.std.specs.Iterator.{at_most};
ghost use Rattle.definition.specs.Basic.{sum};
ghost use Rattle.definition.specs.Calls.{left};
ghost use Rattle.definition.specs.Key.{copybooks, key_in, is_set, key_of_texts, key_call};
ghost use Rattle.key.specs.Sought.{found_key};
ghost use Rattle.key.specs.Sets.{key_given, read_key, all_agreed, Lent, keys_given};

use crate::{Finding, Sought};
use definition::{FEWEST_IN_SET, KeyColumn, MOST_IN_SET, Refusal};
use record::asking::Question;
use record::{LaidRecord, asking};

// ---------------------------------------------------------------- one copybook

/// The key of this name.
#[derive(Clone, Copy)]
pub struct KeyNamed<'a> {
    /// The name that is sought, case aside.
    pub name: &'a [u8],
}

impl<'a> Question for KeyNamed<'a> {
    type Reply = Sought;

    ghost answers = { key_given };

    fn answer(self, laid: LaidRecord, _out: &mut [u8]) -> Result<Sought, Refusal> {
        Ok(crate::seek_key(laid.text, laid.table, self.name))
    }
}

// What is found for a key in a copybook, where so much work memory is lent.
fn key_of(text: &[u8], work: usize, name: &[u8]) -> Result<Sought, Refusal>
    ensures { read_key text.now result ≡ key_in work name.now text.now }
{
    asking::ask(KeyNamed { name }, text, work, &mut [])
}

// ---------------------------------------------------------------- a set

// Whether stated lengths add up to n bytes: no sum is made that is larger.
#[tactic(auto, using(crate::proofs::SetLaws::sum_next, crate::proofs::SetLaws::sum_none))]
fn adds_up(lengths: &[u64], n: usize) -> bool
    ensures { result ≡ eqb (sum lengths.now) n }
{
    let mut left = n;
    for len in lengths {
        let Some(rest) = left.checked_sub(*len as usize) else {
            return false;
        };
        left = rest;
    }
    left == 0
}

// The copybooks that are still to come, one after the other by their lengths.
#[derive(Clone, Copy)]
struct Texts<'a> {
    bytes: &'a [u8],
    lengths: &'a [u64],
    ghost fit: { sum lengths.now ≤ length bytes.now },
}

impl<'a> Iterator for Texts<'a> {
    type Item = &'a [u8];

    ghost next_gives = { λ s r t. MatchOption r
        ((copybooks s.lengths.now s.bytes.now ≡ []) × (t ≡ s))
        (λ text. copybooks s.lengths.now s.bytes.now ≡ text.now ∷ copybooks t.lengths.now t.bytes.now) };

    ghost remaining = { λ s. at_most (length s.lengths.now) };

    #[tactic(auto, unfolding(definition::specs::Key::copybooks, definition::specs::Basic::sum))]
    fn next(&mut self) -> Option<&'a [u8]> {
        let [len, lengths @ ..] = self.lengths else {
            return None;
        };
        let (text, bytes) = self.bytes.split_at(*len as usize);
        *self = Texts { bytes, lengths };
        Some(text)
    }
}

// Copybooks one after the other, by their lengths, and the name that is sought in each.
#[derive(Clone, Copy)]
struct Copybooks<'a> {
    texts: &'a [u8],
    lengths: &'a [u64],
    name: &'a [u8],
}

impl<'a> Copybooks<'a> {
    // Whether it is a set: 2 to 16 copybooks, whose lengths add up to the bytes lent.
    fn is_set(self) -> bool
        ensures { result ≡ is_set self.entry.lengths.now self.entry.texts.now }
    {
        matches!(self.lengths.len(), FEWEST_IN_SET..=MOST_IN_SET)
            && adds_up(self.lengths, self.texts.len())
    }

    // Whether all of them have the key that was found in one before them.
    #[tactic(auto, using(crate::proofs::SetLaws::agree_steps), unfolding(definition::specs::Basic::and_then))]
    fn all_agree(self, first: Finding, work: usize) -> Result<bool, Refusal>
        requires { sum self.lengths.now ≤ length self.texts.now }
        ensures { result
            ≡ all_agreed work self.entry.name.now
            (found_key first.entry.text.now first.entry.found) true
            (copybooks self.entry.lengths.now self.entry.texts.now) }
    {
        let texts = Texts {
            bytes: self.texts,
            lengths: self.lengths,
        };
        let mut agreed = true;
        for text in texts {
            let found = key_of(text, work, self.name)?;
            agreed = agreed && first.agrees(Finding { text, found });
        }
        Ok(agreed)
    }

    // The key of a set: that of the first copybook, where the others have it too.
    #[tactic(auto, using(crate::proofs::SetLaws::set_steps), unfolding(definition::specs::Basic::and_then))]
    fn key_of_set(self, work: usize) -> Result<KeyColumn, Refusal>
        requires { Lent self.texts.now self.lengths.now }
        ensures { result
            ≡ keys_given work self.entry.name.now self.entry.lengths.now self.entry.texts.now }
    {
        let (text, others) = self.texts.split_at(self.lengths[0] as usize);
        let found = key_of(text, work, self.name)?;
        let later = Copybooks {
            texts: others,
            lengths: &self.lengths[1..],
            name: self.name,
        };
        if later.all_agree(Finding { text, found }, work)? {
            found
                .candidate()
                .map(KeyColumn::from)
                .ok_or(Refusal::NoCommonKey)
        } else {
            Err(Refusal::NoCommonKey)
        }
    }

    // The same of any of them: 56 before any reading.
    #[tactic(auto, using(crate::proofs::SetLaws::lent), unfolding(definition::specs::Key::key_of_texts, definition::specs::Basic::and_then))]
    fn key(self, work: usize) -> Result<KeyColumn, Refusal>
        ensures { result
            ≡ key_of_texts self.entry.texts.now self.entry.lengths.now self.entry.name.now work }
    {
        if self.is_set() {
            self.key_of_set(work)
        } else {
            Err(Refusal::NotASet)
        }
    }
}

/// The key of that name that all copybooks of a set have, one after the other by their lengths; work memory is zero
/// after it. 56 for what is no set; else the refusal of the first one that is refused, or 57 for no key common to all.
pub fn set_key(
    texts: &[u8],
    lengths: &[u64],
    name: &[u8],
    work: &mut [u32],
) -> Result<KeyColumn, Refusal>
    ensures { left result [] work.new ≡ key_call texts.now lengths.now name.now work.old }
{
    let set = Copybooks {
        texts,
        lengths,
        name,
    };
    let answer = set.key(work.len());
    rows::clear(work);
    answer
}
