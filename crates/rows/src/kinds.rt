//! The numbers of kinds, signs, storages and usages: what the listing writes and C is handed, and what C hands in.

ghost use Rattle.std.specs.Prelude.{ℕ, ◌≡◌};
ghost use Rattle.definition.specs.Listing.{flag, sign_byte, storage_byte, kind_byte};
ghost use Rattle.rows.specs.Kinds.{flag_at, sign_at, storage_at, numbers_of};
ghost use Rattle.rows.specs.Usages.{usage_byte, usage_at, item_usage_byte, item_usage_at, clause_at};
ghost use Rattle.definition.specs.Details.{sign_words_byte};
ghost use Rattle.rows.specs.Usages.{sign_words_at};
ghost use Rattle.rows.specs.Laws.{flag-back, sign-back, storage-back, picture-usage-back, usage-back, sign-words-back};

use definition::{FieldKind, ItemUsage, NumRepr, SignKind, SignWords, Usage};

// ---------------------------------------------------------------- one byte for a value

/// A value that has a number of one byte, and is read back from it.
// A From can't be written here between a number and another crate's type.
pub trait Coded: Copy {
    ghost code: { Self → ℕ };

    ghost at: { ℕ → Self };

    /// Its number.
    fn code(self) -> u8
        ensures { result ≡ code self };

    /// The value of a number. A number that no value has stands for one of them all the same.
    fn at(n: u8) -> Self
        ensures { result ≡ at n };

    // a number gives its value back
    ghost back: { (x : Self) → at (code x) ≡ x };
}

// A flag: 1 for true, 0 for false.
impl Coded for bool {
    ghost code = { flag };

    ghost at = { flag_at };

    ghost back = { flag-back };

    fn code(self) -> u8 {
        u8::from(self)
    }

    fn at(n: u8) -> Self {
        n == 1
    }
}

// A sign.
impl Coded for SignKind {
    ghost code = { sign_byte };

    ghost at = { sign_at };

    ghost back = { sign-back };

    fn code(self) -> u8 {
        match self {
            SignKind::Unsigned => 0,
            SignKind::Embedded => 1,
            SignKind::LeadingSeparate => 2,
            SignKind::TrailingSeparate => 3,
        }
    }

    fn at(n: u8) -> Self {
        match n {
            1 => SignKind::Embedded,
            2 => SignKind::LeadingSeparate,
            3 => SignKind::TrailingSeparate,
            _ => SignKind::Unsigned,
        }
    }
}

// How a decimal is stored.
impl Coded for NumRepr {
    ghost code = { storage_byte };

    ghost at = { storage_at };

    ghost back = { storage-back };

    fn code(self) -> u8 {
        match self {
            NumRepr::Display => 0,
            NumRepr::Comp3 => 1,
            NumRepr::Zoned => 2,
        }
    }

    fn at(n: u8) -> Self {
        match n {
            1 => NumRepr::Comp3,
            2 => NumRepr::Zoned,
            _ => NumRepr::Display,
        }
    }
}

// The usage of a picture.
impl Coded for Usage {
    ghost code = { usage_byte };

    ghost at = { usage_at };

    ghost back = { picture-usage-back };

    fn code(self) -> u8 {
        match self {
            Usage::Display => 0,
            Usage::Comp3 => 1,
            Usage::Comp => 2,
        }
    }

    fn at(n: u8) -> Self {
        match n {
            0 => Usage::Display,
            1 => Usage::Comp3,
            _ => Usage::Comp,
        }
    }
}

// The usage of an item: its picture's, or a float's.
impl Coded for ItemUsage {
    ghost code = { item_usage_byte };

    ghost at = { item_usage_at };

    ghost back = { usage-back };

    fn code(self) -> u8 {
        match self {
            ItemUsage::Picture(u) => u.code(),
            ItemUsage::Comp1 => 3,
            ItemUsage::Comp2 => 4,
        }
    }

    fn at(n: u8) -> Self {
        match n {
            3 => ItemUsage::Comp1,
            4 => ItemUsage::Comp2,
            _ => ItemUsage::Picture(Usage::at(n)),
        }
    }
}

// What is said of the sign, or that nothing is: 0, and every number over 4.
// A number over 4 says nothing of a sign, where `clause_at` takes each number but 0 for something said.
impl Coded for Option<SignWords> {
    ghost code = { sign_words_byte };

    ghost at = { sign_words_at };

    ghost back = { sign-words-back };

    fn code(self) -> u8 {
        self.map_or(0, |s| 1 + s.leading.code() + 2 * s.separate.code())
    }

    fn at(n: u8) -> Self {
        let (leading, separate) = match n {
            1 => (false, false),
            2 => (true, false),
            3 => (false, true),
            4 => (true, true),
            _ => return None,
        };
        Some(SignWords { leading, separate })
    }
}

// ---------------------------------------------------------------- what a clause says

/// What a clause says, from its number.
pub fn clause_at<T: Coded>(n: u8) -> Option<T>
    ensures { result ≡ clause_at T.at n }
{
    Some(T::at(n.checked_sub(1)?))
}

// ---------------------------------------------------------------- kinds

/// A kind's own number, and those of what it holds, each 0 where it has none; a float's precision is its bits.
#[derive(Clone, Copy, Default)]
pub struct KindNumbers {
    /// The kind's own, 1 to 7, or 0 where there is none.
    pub kind: u8,
    /// Whether a number is signed, 1 for yes.
    pub signed: u8,
    /// Where it has its sign.
    pub sign: u8,
    /// How many digits it has, or a float's bits.
    pub precision: u8,
    /// How many of the digits stand after the point.
    pub scale: u8,
    /// How the digits of a decimal are stored.
    pub storage: u8,
}

impl From<FieldKind> for KindNumbers {
    ghost from_gives = { λ k n. n ≡ numbers_of k };

    fn from(k: FieldKind) -> KindNumbers {
        match k {
            FieldKind::Text => KindNumbers {
                kind: 1,
                ..KindNumbers::default()
            },
            FieldKind::Int { signed, sign } => KindNumbers {
                kind: 2,
                signed: signed.code(),
                sign: sign.code(),
                ..KindNumbers::default()
            },
            FieldKind::Binary { signed } => KindNumbers {
                kind: 3,
                signed: signed.code(),
                ..KindNumbers::default()
            },
            FieldKind::Decimal {
                precision,
                scale,
                repr,
                sign,
            } => KindNumbers {
                kind: 4,
                signed: 0,
                sign: sign.code(),
                precision,
                scale,
                storage: repr.code(),
            },
            FieldKind::Edited {
                precision,
                scale,
                signed,
            } => KindNumbers {
                kind: 5,
                signed: signed.code(),
                precision,
                scale,
                ..KindNumbers::default()
            },
            FieldKind::Group => KindNumbers {
                kind: 6,
                ..KindNumbers::default()
            },
            FieldKind::Float { bits } => KindNumbers {
                kind: 7,
                precision: bits,
                ..KindNumbers::default()
            },
        }
    }
}

/// A kind's own number, which its entry in the listing begins with.
pub fn kind_byte(k: FieldKind) -> u8
    ensures { result ≡ kind_byte k }
{
    KindNumbers::from(k).kind
}
