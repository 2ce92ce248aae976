//! The copybook text: its bytes, words and numbers, and the checks of the text itself; in modules its tokens and the
//! word reader, the keyword that a word is, the names in it, and what a reader sees of cards. A word is the part of the
//! text that it fills.
#![tactic(auto)]

ghost use Rattle.std.specs.Prelude.{◌≡◌, ◌↔◌, IsTrue, nat_lt, position};
ghost use Rattle.definition.specs.Basic.{white, upper as upper_of, uppers, same, numeral, below, number, count};
ghost use Rattle.definition.specs.Calls.{text_checks, entry_checks};

use definition::{LEAST_WORK, MOST_BYTES, Refusal};

pub mod cards;
pub mod keywords;
pub mod names;
pub mod tokens;
pub mod words;

/// Whether a byte is white space.
pub fn is_white(b: u8) -> bool
    ensures { result ≡ white b }
{
    matches!(b, b' ' | b'\t'..=b'\r')
}

/// A small letter's capital, and any other byte itself.
pub fn upper(b: u8) -> u8
    ensures { result ≡ upper_of b }
{
    b.to_ascii_uppercase()
}

/// Whether a word in upper case is this one.
// Apart from `same_key`: the check follows the chain of iterators to this clause, and not to an equation of tests.
// Not `eq_ignore_ascii_case`, which would raise the key too: a key in small letters is no word's.
fn is_spelt(word: &[u8], key: &[u8]) -> bool
    ensures { IsTrue result ↔ (uppers word.now ≡ key.now) }
{
    word.len() == key.len() && word.iter().zip(key).all(|(b, k)| upper(*b) == *k)
}

/// Whether a word in upper case is the keyword.
#[tactic(auto, using(crate::proofs::Steps::case_steps))]
pub fn same_key(word: &[u8], key: &[u8]) -> bool
    ensures { result ≡ same (uppers word.now) key.now }
{
    is_spelt(word, key)
}

/// Whether two names are the same, case aside.
#[tactic(auto, using(crate::proofs::Steps::case_steps))]
pub fn same_name(a: &[u8], b: &[u8]) -> bool
    ensures { result ≡ same (uppers a.now) (uppers b.now) }
{
    a.eq_ignore_ascii_case(b)
}

/// Whether two names are the same, case included.
#[tactic(auto, using(crate::proofs::Steps::word_steps))]
pub fn same_spelling(a: &[u8], b: &[u8]) -> bool
    ensures { result ≡ same a.now b.now }
{
    a == b
}

/// The number that digits spell: one digit at least, no other byte, and below 2^64.
// Not `parse`: over `from_utf8` it goes over a word twice, 112 instructions for two digits in place of 45.
#[tactic(auto, using(crate::proofs::Steps::digit_steps))]
fn number_of(digits: &[u8]) -> Option<u64>
    ensures { result ≡ below 18446744073709551616 (numeral digits.now) }
{
    if digits.is_empty() {
        return None;
    }
    let mut n: u64 = 0;
    for b in digits {
        if !b.is_ascii_digit() {
            return None;
        }
        n = n.checked_mul(10)?.checked_add(u64::from(*b - b'0'))?;
    }
    Some(n)
}

/// The count that a word spells, below 2^64, with a plus in front or none; `None` where it spells none.
#[tactic(auto, using(crate::proofs::Steps::number_steps))]
pub fn count_of(word: &[u8]) -> Option<u64>
    ensures { result ≡ count word.now }
{
    match word {
        [b'+', digits @ ..] => number_of(digits),
        _ => number_of(word),
    }
}

/// The level that a word spells, 0 to 255; `None` where it spells none.
#[tactic(auto, using(crate::proofs::Steps::number_steps))]
pub fn level_of(word: &[u8]) -> Option<u8>
    ensures { result ≡ number 256 word.now }
{
    u8::try_from(count_of(word)?).ok()
}

/// The place of the first byte over 127.
#[tactic(auto, using(crate::proofs::Steps::ascii_none))]
fn first_wide(text: &[u8]) -> Option<usize>
    ensures { result ≡ position (λ b. nat_lt 127 b) text.now }
{
    // Asked first, since it is the faster one over a whole text: it takes many bytes at a time. `position` takes one
    // after the other, and only a text with a wide byte needs it.
    if text.is_ascii() {
        return None;
    }
    text.iter().position(|b| *b > 127)
}

/// The checks of a text: refusal 1 for one over `MOST_BYTES` bytes, and 2 at the first byte over 127.
#[tactic(auto, using(crate::proofs::Steps::answer_steps), unfolding(definition::specs::Calls::text_checks))]
pub fn text_checks(text: &[u8]) -> Result<(), Refusal>
    ensures { result ≡ text_checks text.now }
{
    if MOST_BYTES < text.len() {
        return Err(Refusal::TextTooLong);
    }
    match first_wide(text) {
        Some(position) => Err(Refusal::WideByte { position }),
        None => Ok(()),
    }
}

/// The checks of an entry: those of the text, then refusal 3 for work memory under `LEAST_WORK` numbers.
#[tactic(auto, using(crate::proofs::Steps::answer_steps), unfolding(definition::specs::Calls::entry_checks))]
pub fn entry_checks(text: &[u8], work_len: usize) -> Result<(), Refusal>
    ensures { result ≡ entry_checks text.now work_len }
{
    text_checks(text)?;
    if work_len < LEAST_WORK {
        return Err(Refusal::WorkTooShort);
    }
    Ok(())
}
