//! The key of a laid record: the one entry of a name at the top, found in the table of entries, and whether two
//! copybooks' keys agree; in a module the key of a set of copybooks. Leans on `record`.
#![tactic(auto)]

ghost use Rattle.std.specs.Prelude.{◌≡◌, length};
ghost use Rattle.std.proofs.Math.Bool.{Bool.false};
ghost use Rattle.definition.specs.Basic.{same};
ghost use Rattle.definition.specs.Key.{is_named, named, may_be_key};
ghost use Rattle.definition.specs.Key.{same_key, agree};
ghost use Rattle.fold.specs.Entered.{shown_of, shown_all};
ghost use Rattle.key.specs.Sought.{column_of, key_column, key_at, candidate, found_key, met, sought_at, sought_in};

use definition::{Entry, FieldKind, KeyColumn, LONGEST_MASK, Span, Usage};
use fold::table::{RowItem, Table};
use picture::mask;
use text::names;

pub mod family;

/// A column that may be a key: its place, what it holds, and its picture in the text.
#[derive(Clone, Copy)]
pub struct Candidate {
    /// Where it starts in the record.
    pub offset: usize,
    /// How many bytes it takes.
    pub width: usize,
    /// What it holds.
    pub kind: FieldKind,
    /// Its picture's place in the text.
    pub picture: Span,
}

impl From<Entry> for Candidate {
    ghost from_gives = { λ e c. c ≡ column_of e };

    fn from(e: Entry) -> Candidate {
        Candidate {
            offset: e.offset,
            width: e.width,
            kind: e.kind,
            picture: e.picture,
        }
    }
}

impl From<Candidate> for KeyColumn {
    ghost from_gives = { λ c k. k ≡ key_column c };

    fn from(c: Candidate) -> KeyColumn {
        KeyColumn {
            offset: c.offset,
            width: c.width,
        }
    }
}

/// What a search has found.
#[derive(Clone, Copy)]
pub enum Sought {
    /// No entry of the name.
    Nothing,
    /// One, which may be a key.
    One(Candidate),
    /// One that may not, or several.
    Spoilt,
}

// ---------------------------------------------------------------- an entry

// Whether an entry has the name, case aside; an absent one means FILLER.
fn is_named(text: &[u8], name: &[u8], e: Entry) -> bool
    ensures { result ≡ is_named text.now name.now e }
{
    text::same_name(name, names::name_of(text, e.name))
}

// Whether an entry may be a key: no DEPENDING ON before it, no OCCURS, no REDEFINES, and no group.
fn may_be_key(e: Entry, behind: bool) -> bool
    ensures { result ≡ may_be_key (named e behind) }
{
    !behind && e.occurs.is_none() && !e.redefines.is_given() && !matches!(e.kind, FieldKind::Group)
}

impl Sought {
    /// The one that may be a key, or none.
    pub fn candidate(self) -> Option<Candidate>
        ensures { result ≡ candidate self }
    {
        match self {
            Sought::One(c) => Some(c),
            _ => None,
        }
    }

    // What is found with one more entry of the name: the first may be the key, and a second spoils it.
    fn with(self, e: Entry, behind: bool) -> Sought
        ensures { result ≡ met self (named e behind) }
    {
        match self {
            Sought::Nothing if may_be_key(e, behind) => Sought::One(Candidate::from(e)),
            _ => Sought::Spoilt,
        }
    }
}

// ---------------------------------------------------------------- the table

// What is found with one more item, which counts where it stands at the top and has the name.
fn sought_at(text: &[u8], x: RowItem, name: &[u8], behind: bool, found: Sought) -> Sought
    ensures { result ≡ sought_at text.now name.now behind found
        (shown_of x.entry.rows.all.now x.entry.item.now) }
{
    if 0 < x.item.depth {
        return found;
    }
    let e = x.entry();
    if is_named(text, name, e) {
        return found.with(e, behind);
    }
    found
}

/// The key of that name among the entries.
#[tactic(auto, using(crate::proofs::SoughtLaws::seeking))]
pub fn seek_key(text: &[u8], table: Table, name: &[u8]) -> Sought
    ensures { result ≡ sought_in text.now name.now false Sought.Nothing
        (shown_all table.entry.rows.all.now table.entry.items.now) }
{
    let mut found = Sought::Nothing;
    let mut behind = false;
    for item in table.items {
        let x = table.row_item(item);
        found = sought_at(text, x, name, behind, found);
        behind |= x.depends();
    }
    found
}

// ---------------------------------------------------------------- two keys

// A candidate in its text.
#[derive(Clone, Copy)]
struct TextKey<'a> {
    text: &'a [u8],
    column: Candidate,
}

impl<'a> TextKey<'a> {
    // What an edited key is compared by, its mask, written to an output; of any other kind nothing.
    fn mask<'b>(self, out: &'b mut [u8]) -> &'b [u8]
        requires { length out.old ≡ LONGEST_MASK }
        ensures { result.now ≡ (key_at self.entry.text.now self.entry.column).mask }
    {
        match self.column.kind {
            FieldKind::Edited { .. } => {
                let pic = names::part_within(self.text, self.column.picture);
                let n = mask::picture_mask(pic, Usage::Display, out).unwrap_or(0);
                &out[..n]
            }
            _ => &[],
        }
    }

    // Whether two keys have the same mask.
    fn same_mask(self, other: TextKey) -> bool
        ensures { result
            ≡ same (key_at self.entry.text.now self.entry.column).mask
            (key_at other.entry.text.now other.entry.column).mask }
    {
        let mut a = [0u8; LONGEST_MASK];
        let mut b = [0u8; LONGEST_MASK];
        text::same_spelling(self.mask(&mut a), other.mask(&mut b))
    }

    // Whether two keys agree in offset, width, kind and kind details.
    // Of pictures the masks are compared, each in its own text, and not the places, as a derived `==` would.
    #[tactic(auto, using(crate::proofs::KindLaws::kind_steps))]
    fn agrees(self, other: TextKey) -> bool
        ensures { result
            ≡ same_key (key_at self.entry.text.now self.entry.column)
            (key_at other.entry.text.now other.entry.column) }
    {
        self.column.kind == other.column.kind
            && self.column.offset == other.column.offset
            && self.column.width == other.column.width
            && self.same_mask(other)
    }
}

/// A text, and what was found in it.
#[derive(Clone, Copy)]
pub struct Finding<'a> {
    /// The text.
    pub text: &'a [u8],
    /// What was found.
    pub found: Sought,
}

impl<'a> Finding<'a> {
    /// Whether in both a key was found, and these agree.
    pub fn agrees(self, other: Finding) -> bool
        ensures { result
            ≡ agree (found_key self.entry.text.now self.entry.found)
            (found_key other.entry.text.now other.entry.found) }
    {
        match (self.found, other.found) {
            (Sought::One(a), Sought::One(b)) => {
                let key = TextKey {
                    text: self.text,
                    column: a,
                };
                key.agrees(TextKey {
                    text: other.text,
                    column: b,
                })
            }
            _ => false,
        }
    }
}
