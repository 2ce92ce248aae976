//! The types that the definition speaks of, and that the code hands from one stage to the next: the reader's states,
//! what statements and pictures say, the entries of the listing, what is asked of a record, and the refusals. Two of
//! them, `Mode` and `Token`, no code holds: specs and proofs name them. A place in the copybook text is a span, its
//! first byte and its length; length 0 means absent. Positions count bytes from 0.

#![tactic(auto)]

ghost use Rattle.std.specs.Prelude.{◌≡◌, ◌+◌, ◌-◌, ◌≤◌, length, Some};
ghost use Rattle.definition.specs.Basic.{is_given, part, span};
ghost use Rattle.definition.specs.declared.TheConstants.{MOST_BYTES};
ghost use Rattle.definition.specs.Picture.{is_alignable};
ghost use Rattle.definition.specs.Refusals.{refusal_number, refusal_position, refusal_needed};
ghost use Rattle.definition.specs.Statement.{missing, sign_of};

// ---------------------------------------------------------------- limits

// The code and the definition both take them from here. In brackets stands the refusal of what is past them.

/// The most bytes of a text (1).
pub const MOST_BYTES: usize = 65535;

/// The fewest numbers of 32 bits that work memory has (3).
pub const LEAST_WORK: usize = 16384;

/// The most statements that are kept (14).
pub const MOST_STATEMENTS: usize = 800;

/// The depth of the deepest list; the record's fields are at 0 (20).
pub const DEEPEST: u32 = 64;

/// The most symbols of a picture (24).
pub const MOST_SYMBOLS: u32 = 65535;

/// The most digits of a number, P included (27).
pub const MOST_DIGITS: usize = 31;

/// The most bytes of a mask (27).
pub const LONGEST_MASK: usize = 255;

/// The largest count of OCCURS, aligned cursor, size or end (29).
pub const LARGEST: usize = 2147483647;

/// The same, as a count has it.
pub const LARGEST_COUNT: u64 = LARGEST as u64;

/// The most top-level items that an extract is chosen from (58).
pub const MOST_ITEMS: usize = 16;

/// The smallest weight of an item (59).
pub const LEAST_WEIGHT: u32 = 1;

/// The largest weight of an item (59).
pub const MOST_WEIGHT: u32 = 1000;

/// The fewest copybooks of a set (56).
pub const FEWEST_IN_SET: usize = 2;

/// The most copybooks of a set (56).
pub const MOST_IN_SET: usize = 16;

// ---------------------------------------------------------------- the text

/// A place in the text: a word, a name, a picture. A text has at most 65,535 bytes, so 16 bits hold either number.
#[derive(Clone, Copy)]
pub struct Span {
    /// Its first byte.
    pub start: u16,
    /// Its length in bytes; 0 means absent.
    pub len: u16,
}

impl Span {
    /// No place in the text.
    // Not an Option: a row, the listing and what C is handed have length 0 for it.
    pub const ABSENT: Span = Span { start: 0, len: 0 };

    /// The bytes from one place of the text up to another.
    pub fn between(start: usize, end: usize) -> Span
        requires { (start ≤ end) × (end ≤ MOST_BYTES) }
        ensures { result ≡ span start (end - start) }
    {
        Span {
            start: start as u16,
            len: (end - start) as u16,
        }
    }

    /// Whether it is a place in the text.
    pub fn is_given(self) -> bool
        ensures { result ≡ is_given self }
    {
        0 < self.len
    }

    /// The part of a text that it is.
    pub fn part_of(self, text: &[u8]) -> &[u8]
        requires { self.start + self.len ≤ length text.now }
        ensures { result.now ≡ part text.now self }
    {
        let start = usize::from(self.start);
        &text[start..start + usize::from(self.len)]
    }
}

/// What a byte of the text is to the reader, by itself and the bytes after it.
#[derive(Clone, Copy)]
pub enum ByteKind {
    /// The end of a line.
    Newline,
    /// Other white space.
    Blank,
    /// The beginning of `*>`, which cuts the line.
    Cut,
    /// Any other `*`.
    Star,
    /// A period that ends a statement.
    Period,
    /// Any other byte.
    Other,
}

/// Where the reader is.
#[derive(Clone, Copy)]
pub enum Mode {
    /// Before the first non-blank of a line.
    Fresh,
    /// Between words.
    Between,
    /// In what is dropped of a line.
    Dropped,
    /// In a word that began at this position.
    Within(usize),
}

/// What a statement has said so far, as far as its literals go.
#[derive(Clone, Copy)]
pub enum LiteralState {
    /// This many words, 2 standing for more, and no VALUE from the third on.
    Before(u8),
    /// VALUE: a quote or an apostrophe opens a literal.
    Value,
    /// A literal is open, with this mark at this position.
    Literal { mark: u8, at: usize },
}

/// What the reader makes of the text's bytes.
#[derive(Clone, Copy)]
pub enum Token {
    /// A word.
    Word(Span),
    /// The period, at this position, that ends a statement.
    Stop(usize),
    /// The opening mark, at this position, of a literal that its line does not close.
    Open(usize),
}

// ---------------------------------------------------------------- pictures

/// The usage that a picture is read with.
#[derive(Clone, Copy)]
pub enum Usage {
    /// DISPLAY: a byte for each character or digit.
    Display,
    /// COMP-3: two digits a byte.
    Comp3,
    /// COMP: a binary number.
    Comp,
}

/// The usage of an item.
#[derive(Clone, Copy)]
pub enum ItemUsage {
    /// One that its picture is read with.
    Picture(Usage),
    /// That of a float of 32 bits, which has no picture.
    Comp1,
    /// That of a float of 64 bits, which has no picture.
    Comp2,
}

/// A usage that is named.
#[derive(Clone, Copy)]
pub struct NamedUsage {
    /// The usage.
    pub usage: ItemUsage,
    /// The word that names it.
    pub word: Span,
}

/// Where a number has its sign.
#[derive(Clone, Copy, PartialEq, Eq)]
pub enum SignKind {
    /// Nowhere: it has none.
    Unsigned,
    /// In a byte of its digits.
    Embedded,
    /// In a byte of its own before them.
    LeadingSeparate,
    /// In a byte of its own after them.
    TrailingSeparate,
}

/// The sign that the words of SIGN say: one that is not separate is embedded, whether leading or trailing.
impl From<SignWords> for SignKind {
    ghost from_gives = { λ w s. sign_of (Some w) ≡ Some s };

    fn from(w: SignWords) -> SignKind {
        match (w.separate, w.leading) {
            (false, _) => SignKind::Embedded,
            (true, true) => SignKind::LeadingSeparate,
            (true, false) => SignKind::TrailingSeparate,
        }
    }
}

/// What SIGN says.
#[derive(Clone, Copy)]
pub struct SignWords {
    /// Whether LEADING was said.
    pub leading: bool,
    /// Whether SEPARATE was said.
    pub separate: bool,
}

/// How the digits of a decimal are stored.
#[derive(Clone, Copy, PartialEq, Eq)]
pub enum NumRepr {
    /// A digit a byte.
    Display,
    /// Two digits a byte, and the sign after the last one.
    Comp3,
    /// A digit a byte, the sign in one of them.
    Zoned,
}

/// What an item holds. A precision counts digits and a scale those after the point, both with P; `signed` is true
/// where the picture has a sign.
#[derive(Clone, Copy, PartialEq, Eq)]
pub enum FieldKind {
    /// Characters.
    Text,
    /// Digits, a byte each.
    Int {
        signed: bool,
        sign: SignKind,
    },
    /// A number of COMP, big-endian.
    Binary {
        signed: bool,
    },
    /// A number with a point, an embedded sign, or of COMP-3.
    Decimal {
        precision: u8,
        scale: u8,
        repr: NumRepr,
        sign: SignKind,
    },
    /// A number as it is printed.
    Edited {
        precision: u8,
        scale: u8,
        signed: bool,
    },
    /// Members.
    Group,
    /// A float of 32 or 64 bits, big-endian.
    Float {
        bits: u8,
    },
}

impl FieldKind {
    /// Whether SYNC aligns it: binary, or a float.
    pub fn is_alignable(self) -> bool
        ensures { result ≡ is_alignable self }
    {
        matches!(self, FieldKind::Binary { .. } | FieldKind::Float { .. })
    }
}

/// The digits that a picture says.
#[derive(Clone, Copy)]
pub struct Digits {
    /// How many they are, P included; of an edited item at least 1.
    pub precision: u8,
    /// How many of them stand after the point, P included.
    pub scale: u8,
    /// Whether the picture has a sign.
    pub signed: bool,
}

/// What a picture says.
#[derive(Clone, Copy)]
pub struct Pictured {
    /// What the item holds.
    pub kind: FieldKind,
    /// The digits of a number, an edited one included; a text, a float and a group have none.
    pub digits: Option<Digits>,
    /// The bytes of one occurrence.
    pub width: usize,
}

// ---------------------------------------------------------------- statements

/// What the clauses of a statement say.
#[derive(Clone, Copy)]
pub struct Clauses {
    /// The word after PIC.
    pub picture: Span,
    /// The usage that is named, by the last of the words that name one.
    pub usage: Option<NamedUsage>,
    /// What SIGN says.
    pub sign: Option<SignWords>,
    /// Whether SYNC was said.
    pub sync: bool,
    /// The count of OCCURS, the bound after TO where there is one; an item without OCCURS stands once.
    pub occurs: Option<u64>,
    /// The name after DEPENDING ON.
    pub depending: Span,
    /// The name after REDEFINES.
    pub redefines: Span,
}

/// The clause that a word begins, where one may begin.
#[derive(Clone, Copy)]
pub enum Keyword {
    /// PIC.
    Picture,
    /// REDEFINES.
    Redefines,
    /// OCCURS.
    Occurs,
    /// USAGE.
    Usage,
    /// The name of a usage, with or without USAGE before it.
    Names(ItemUsage),
    /// SIGN.
    Sign,
    /// SYNC.
    Sync,
    /// VALUE.
    Value,
}

/// What the reader of a statement expects.
#[derive(Clone, Copy)]
pub enum ParseState {
    /// A clause.
    Clause,
    /// IS or a picture.
    IsPicture,
    /// A picture.
    APicture,
    /// A REDEFINES target.
    Target,
    /// A count.
    ACount,
    /// TO, TIMES, DEPENDING or a clause.
    To,
    /// A bound after TO.
    Bound,
    /// TIMES, DEPENDING or a clause.
    Times,
    /// DEPENDING or a clause.
    DependingOn,
    /// ON or a name.
    OnName,
    /// A name.
    AName,
    /// IS or a clause, after USAGE.
    UsageIs,
    /// IS or the word of SIGN.
    SignIs,
    /// The word of SIGN.
    SignWord,
    /// LEFT, RIGHT or a clause, after SYNC.
    Side,
    /// Nothing, after VALUE.
    Nothing,
}

/// What a statement lacks at the end of a clause.
#[derive(Clone, Copy)]
pub enum Missing {
    /// A count after OCCURS.
    Count,
    /// A bound after TO.
    Bound,
    /// A name after DEPENDING.
    Name,
}

impl Missing {
    /// Why the statement that begins at that byte is refused.
    pub fn at(self, position: u16) -> Refusal
        ensures { result ≡ missing position self }
    {
        let position = usize::from(position);
        match self {
            Missing::Count => Refusal::BadCount { position },
            Missing::Bound => Refusal::BadBound { position },
            Missing::Name => Refusal::NoDependingName { position },
        }
    }
}

/// A kept statement.
#[derive(Clone, Copy)]
pub struct Statement {
    /// Its level, the number that is its first word.
    pub level: u8,
    /// The first byte of its first word.
    pub at: u16,
    /// Its second word.
    pub name: Span,
    /// What its own clauses say.
    pub clauses: Clauses,
    /// The usage that holds for it: its own, or else that of the nearest group above it that names one; DISPLAY where
    /// none does.
    pub usage: Option<NamedUsage>,
}

// ---------------------------------------------------------------- entries

/// An entry of the listing. Offsets and widths are in bytes. A group made by folding has the statement of its base, but
/// none of its clauses.
#[derive(Clone, Copy)]
pub struct Entry {
    /// The first byte of its statement.
    pub at: usize,
    /// The level of its statement.
    pub level: u8,
    /// The name of its statement.
    pub name: Span,
    /// Where it begins: in the record, or in the group of which it is a member.
    pub offset: usize,
    /// The bytes of one occurrence.
    pub width: usize,
    /// What it holds.
    pub kind: FieldKind,
    /// The digits of a number.
    pub digits: Option<Digits>,
    /// The picture of its statement.
    pub picture: Span,
    /// The word that names the usage that holds for it.
    pub usage: Span,
    /// What SIGN says.
    pub sign: Option<SignWords>,
    /// The count of its OCCURS.
    pub occurs: Option<u64>,
    /// The name after its DEPENDING ON.
    pub depending: Span,
    /// The name after its REDEFINES, which the listing leaves out of a member of a fold.
    pub redefines: Span,
    /// The name after its REDEFINES, as the statement has it.
    pub over: Span,
    /// The slack bytes directly before it.
    pub slack: usize,
    /// The slack bytes at the end of each of its occurrences, which its width counts.
    pub slack_at_end: usize,
    /// Whether it is a group made by folding.
    pub folded: bool,
}

/// Why an item stands where it does. What a reason adds to its offset is in bytes.
#[derive(Clone, Copy)]
pub enum Reason {
    /// It is the first of its list.
    First,
    /// It stands directly after the item of that name, and the bytes up to that one's end are added.
    After { name: Span, adds: usize },
    /// So many slack bytes stand before it.
    Slack { adds: usize },
    /// It stands over the item of that name, whose offset is added.
    Over { name: Span, adds: usize },
    /// It is a member of the group of that name.
    Inside { name: Span },
}

// ---------------------------------------------------------------- what is asked of a record

/// What a byte of a record belongs to.
#[derive(Clone, Copy, PartialEq, Eq)]
pub enum Owner {
    /// A piece: one occurrence of the elementary item that is this entry of the listing, with the piece's first byte in
    /// the record and the byte's place inside it.
    Piece {
        entry: usize,
        first: usize,
        place: usize,
    },
    /// The slack before this entry, or at the end of an occurrence of it, a group.
    Slack {
        entry: usize,
    },
}

/// A choice among the top-level items.
#[derive(Clone, Copy)]
pub struct Extract {
    /// The number of the subset: in binary, the first item being the lowest bit.
    pub subset: usize,
    /// The weights of its items, added up.
    pub weight: usize,
    /// How many subsets were looked at.
    pub examined: usize,
    /// By how much the best choice there is may outweigh it at most.
    pub off: usize,
}

/// The column that is the key of a set of copybooks, in each of their records.
#[derive(Clone, Copy)]
pub struct KeyColumn {
    /// Its first byte in the record.
    pub offset: usize,
    /// Its bytes.
    pub width: usize,
}

/// How a copybook is written.
#[derive(Clone, Copy, PartialEq, Eq)]
pub enum Form {
    /// Free text: a line has no columns.
    FreeText,
    /// Cards, COBOL's reference format: what a line's columns hold depends on their number.
    Cards,
}

/// What is written of a copybook's record.
#[derive(Clone, Copy)]
pub enum Report {
    /// The layout listing.
    Listing,
    /// The details of its entries.
    Details,
    /// The reasons of the entry of that number.
    Reasons(usize),
}

// ---------------------------------------------------------------- refusals

/// Why a call is turned down, with the position that is told: the byte of the text, of the card text or of the picture
/// that it is about; or with the length that the output should have had. docs/REFUSALS.md says when each is given.
#[derive(Clone, Copy, PartialEq, Eq)]
pub enum Refusal {
    /// The text has more bytes than a text may have.
    TextTooLong,
    /// A byte over 127.
    WideByte { position: usize },
    /// Too little work memory was lent.
    WorkTooShort,
    /// A statement does not begin with a level.
    BadLevel { position: usize },
    /// No count after OCCURS.
    BadCount { position: usize },
    /// No count after TO.
    BadBound { position: usize },
    /// No name after DEPENDING.
    NoDependingName { position: usize },
    /// More statements than are kept.
    TooManyStatements { position: usize },
    /// Groups nested too deep.
    TooDeep { position: usize },
    /// An item with neither members nor a picture.
    NoPicture { position: usize },
    /// A `(` in a picture without its `)`.
    UnclosedRepeat { position: usize },
    /// No count between `(` and `)`.
    BadRepeat { position: usize },
    /// A picture of too many symbols.
    TooManySymbols { position: usize },
    /// A symbol that no picture has.
    BadSymbol { position: usize },
    /// Text mixed with digits or with editing.
    MixedPicture { position: usize },
    /// Too many digits, or too long a mask.
    TooLong { position: usize },
    /// REDEFINES names no earlier sibling.
    NoTarget { position: usize },
    /// A count, an offset, a width, a size or an end that is too large.
    TooLarge { position: usize },
    /// A redefiner begins before the item that it is folded under.
    StartsBeforeBase { position: usize },
    /// The output is shorter than the answer, which has so many bytes.
    OutputTooShort { needed: usize },
    /// The record has a REDEFINES or a DEPENDING ON.
    Overlaid,
    /// The position is past the record.
    OutsideRecord,
    /// A record is shorter than its layout.
    RecordTooShort,
    /// A literal that its line does not close.
    UnclosedLiteral { position: usize },
    /// A card has no indicator in column 7.
    BadIndicator { position: usize },
    /// A float with a picture.
    FloatWithPicture { position: usize },
    /// The entry's number is past the listing.
    NoSuchEntry,
    /// Too few or too many copybooks, or their lengths do not add up to the bytes lent.
    NotASet,
    /// The copybooks have no common key of that name.
    NoCommonKey,
    /// Too many top-level items, or another number of weights.
    WrongItems,
    /// A weight that is none.
    BadWeight,
    /// No subset may be looked at.
    NoBudget,
}

impl Refusal {
    /// Its number.
    pub fn number(self) -> u32
        ensures { result ≡ refusal_number self }
    {
        match self {
            Refusal::TextTooLong => 1,
            Refusal::WideByte { .. } => 2,
            Refusal::WorkTooShort => 3,
            Refusal::BadLevel { .. } => 10,
            Refusal::BadCount { .. } => 11,
            Refusal::BadBound { .. } => 12,
            Refusal::NoDependingName { .. } => 13,
            Refusal::TooManyStatements { .. } => 14,
            Refusal::TooDeep { .. } => 20,
            Refusal::NoPicture { .. } => 21,
            Refusal::UnclosedRepeat { .. } => 22,
            Refusal::BadRepeat { .. } => 23,
            Refusal::TooManySymbols { .. } => 24,
            Refusal::BadSymbol { .. } => 25,
            Refusal::MixedPicture { .. } => 26,
            Refusal::TooLong { .. } => 27,
            Refusal::NoTarget { .. } => 28,
            Refusal::TooLarge { .. } => 29,
            Refusal::StartsBeforeBase { .. } => 30,
            Refusal::OutputTooShort { .. } => 31,
            Refusal::Overlaid => 40,
            Refusal::OutsideRecord => 41,
            Refusal::RecordTooShort => 42,
            Refusal::UnclosedLiteral { .. } => 50,
            Refusal::BadIndicator { .. } => 51,
            Refusal::FloatWithPicture { .. } => 52,
            Refusal::NoSuchEntry => 53,
            Refusal::NotASet => 56,
            Refusal::NoCommonKey => 57,
            Refusal::WrongItems => 58,
            Refusal::BadWeight => 59,
            Refusal::NoBudget => 60,
        }
    }

    /// The position that it is about, 0 where there is none.
    pub fn position(self) -> usize
        ensures { result ≡ refusal_position self }
    {
        match self {
            Refusal::WideByte { position }
            | Refusal::BadLevel { position }
            | Refusal::BadCount { position }
            | Refusal::BadBound { position }
            | Refusal::NoDependingName { position }
            | Refusal::TooManyStatements { position }
            | Refusal::TooDeep { position }
            | Refusal::NoPicture { position }
            | Refusal::UnclosedRepeat { position }
            | Refusal::BadRepeat { position }
            | Refusal::TooManySymbols { position }
            | Refusal::BadSymbol { position }
            | Refusal::MixedPicture { position }
            | Refusal::TooLong { position }
            | Refusal::NoTarget { position }
            | Refusal::TooLarge { position }
            | Refusal::StartsBeforeBase { position }
            | Refusal::UnclosedLiteral { position }
            | Refusal::BadIndicator { position }
            | Refusal::FloatWithPicture { position } => position,
            _ => 0,
        }
    }

    /// The length that the output should have had, 0 where it is not about the output.
    pub fn needed(self) -> usize
        ensures { result ≡ refusal_needed self }
    {
        match self {
            Refusal::OutputTooShort { needed } => needed,
            _ => 0,
        }
    }
}
