//! The keyword that a word is, in whatever case: the spellings of its first letter are compared, and no others.

ghost use Rattle.std.specs.Prelude.{◌≡◌};
ghost use Rattle.std.specs.List.{find};
ghost use Rattle.std.specs.Option.{option_map};
ghost use Rattle.definition.specs.Basic.{same, uppers};
ghost use Rattle.definition.specs.Statement.{meaning, spellings, keyword_of};
ghost use Rattle.text.specs.Table.{starting, first_meaning};

use definition::{ItemUsage, Keyword, Usage};

const DISPLAY: Keyword = Keyword::Names(ItemUsage::Picture(Usage::Display));

const COMP_3: Keyword = Keyword::Names(ItemUsage::Picture(Usage::Comp3));

const COMP: Keyword = Keyword::Names(ItemUsage::Picture(Usage::Comp));

const COMP_1: Keyword = Keyword::Names(ItemUsage::Comp1);

const COMP_2: Keyword = Keyword::Names(ItemUsage::Comp2);

/// The spelling with B, and what it says; so for each letter that a spelling begins with.
static WITH_B: [(&[u8], Keyword); 1] = [(b"BINARY", COMP)];

/// The spellings with C.
static WITH_C: [(&[u8], Keyword); 12] = [
    (b"COMP-3", COMP_3),
    (b"COMPUTATIONAL-3", COMP_3),
    (b"COMP", COMP),
    (b"COMPUTATIONAL", COMP),
    (b"COMP-4", COMP),
    (b"COMPUTATIONAL-4", COMP),
    (b"COMP-5", COMP),
    (b"COMPUTATIONAL-5", COMP),
    (b"COMP-1", COMP_1),
    (b"COMPUTATIONAL-1", COMP_1),
    (b"COMP-2", COMP_2),
    (b"COMPUTATIONAL-2", COMP_2),
];

/// The spelling with D.
static WITH_D: [(&[u8], Keyword); 1] = [(b"DISPLAY", DISPLAY)];

/// The spelling with O.
static WITH_O: [(&[u8], Keyword); 1] = [(b"OCCURS", Keyword::Occurs)];

/// The spellings with P.
static WITH_P: [(&[u8], Keyword); 3] = [
    (b"PIC", Keyword::Picture),
    (b"PICTURE", Keyword::Picture),
    (b"PACKED-DECIMAL", COMP_3),
];

/// The spelling with R.
static WITH_R: [(&[u8], Keyword); 1] = [(b"REDEFINES", Keyword::Redefines)];

/// The spellings with S.
static WITH_S: [(&[u8], Keyword); 3] = [
    (b"SIGN", Keyword::Sign),
    (b"SYNC", Keyword::Sync),
    (b"SYNCHRONIZED", Keyword::Sync),
];

/// The spelling with U.
static WITH_U: [(&[u8], Keyword); 1] = [(b"USAGE", Keyword::Usage)];

/// The spellings with V.
static WITH_V: [(&[u8], Keyword); 2] = [(b"VALUE", Keyword::Value), (b"VALUES", Keyword::Value)];

/// What the spelling says that is found.
// A function under `meaning_of`: the check goes through a chain of iterators where the clause has the chain's own words.
fn found(word: &[u8], spellings: &[(&[u8], Keyword)]) -> Option<Keyword>
    ensures { result
        ≡ option_map (λ s. s.1) (find (λ s. same (uppers word.now) s.0.now) spellings.now) }
{
    spellings
        .iter()
        .find(|s| crate::same_key(word, s.0))
        .map(|s| s.1)
}

/// What the first spelling says that is the word in upper case.
fn meaning_of(word: &[u8], spellings: &[(&[u8], Keyword)]) -> Option<Keyword>
    ensures { result ≡ first_meaning (uppers word.now) spellings.now }
{
    found(word, spellings)
}

/// What the spellings with a letter say.
// A table for each letter, and not one for all: a word that is no keyword is compared with few spellings.
fn with_letter(b: u8, word: &[u8]) -> Option<Keyword>
    ensures { result ≡ meaning (uppers word.now) (starting b spellings) }
{
    match b {
        b'B' => meaning_of(word, &WITH_B),
        b'C' => meaning_of(word, &WITH_C),
        b'D' => meaning_of(word, &WITH_D),
        b'O' => meaning_of(word, &WITH_O),
        b'P' => meaning_of(word, &WITH_P),
        b'R' => meaning_of(word, &WITH_R),
        b'S' => meaning_of(word, &WITH_S),
        b'U' => meaning_of(word, &WITH_U),
        b'V' => meaning_of(word, &WITH_V),
        _ => None,
    }
}

/// The clause that a word begins, `None` where it begins none.
#[tactic(auto, using(crate::proofs::LetterLaws::letter_steps))]
pub fn keyword_of(word: &[u8]) -> Option<Keyword>
    ensures { result ≡ keyword_of (uppers word.now) }
{
    // Most clauses are pictures, so that this spelling is asked for before the letter is looked at.
    if crate::same_key(word, b"PIC") {
        return Some(Keyword::Picture);
    }
    match word {
        [first, ..] => with_letter(crate::upper(*first), word),
        [] => None,
    }
}
