//! The rows of a copybook: a kept statement, and what the layout finds of it, in a row; some rows of a table, one after
//! the other. In a module the numbers of kinds, signs, storages and usages. Leans on `text`, for the names.
#![tactic(auto)]

ghost use Rattle.std.specs.Prelude.{◌≡◌, ◌≤◌, ◌<◌, length};
ghost use Rattle.definition.specs.Calls.{cleared};
ghost use Rattle.rows.specs.Rows.{new_row, row_code, row_in, before_in};

use definition::{Clauses, Digits, FieldKind, Span, Statement};
use text::names;

pub mod kinds;

/// Sets all of work memory to zero.
pub fn clear(work: &mut [u32])
    ensures { work.new ≡ cleared work.old }
{
    work.fill(0);
}

/// What the layout finds of a row: the place of its item.
#[derive(Clone, Copy)]
pub struct Place {
    /// Where it starts in its list, in bytes.
    pub offset: u32,
    /// How many bytes one occurrence has.
    pub width: u32,
    /// How many slack bytes stand directly before it.
    pub slack: u32,
    /// How many stand at the end of each of its occurrences, which the width counts.
    pub slack_at_end: u8,
    /// What it holds.
    pub kind: FieldKind,
    /// The digits of a number.
    pub digits: Option<Digits>,
    /// How many rows stand below the sibling before it; where there is none, how many rows stand before it.
    pub gap: u16,
    /// The base that it redefines, if any.
    pub base: Option<u16>,
    /// The latest sibling before it without REDEFINES, if any: it may place the row.
    pub plain: Option<u16>,
    /// The sibling that its REDEFINES names, if any: it may place the row.
    pub target: Option<u16>,
    /// The next row of the union that it stands in, if any.
    pub next: Option<u16>,
}

impl Place {
    /// That of a row that was not laid out.
    pub const NONE: Place = Place {
        offset: 0,
        width: 0,
        slack: 0,
        slack_at_end: 0,
        kind: FieldKind::Text,
        digits: None,
        gap: 0,
        base: None,
        plain: None,
        target: None,
        next: None,
    };
}

/// A row: a kept statement, and what is found of it. Rows name each other by their numbers, of which there are no more
/// than 800. A call holds all of them on its stack, so a row is small.
#[derive(Clone, Copy)]
pub struct Row {
    /// The statement, with the usage that holds for it.
    pub statement: Statement,
    /// The row that it stands under, if any.
    pub parent: Option<u16>,
    /// The fingerprint of its name.
    pub fingerprint: u32,
    /// How many rows stand below it.
    pub below: u16,
    /// Its place.
    pub place: Place,
}

const _: () = prove!(size_of::<Row>() == 112);

impl Row {
    /// A row that was not filled.
    pub const BLANK: Row = Row {
        statement: Statement {
            level: 0,
            at: 0,
            name: Span::ABSENT,
            clauses: Clauses {
                picture: Span::ABSENT,
                usage: None,
                sign: None,
                sync: false,
                occurs: None,
                depending: Span::ABSENT,
                redefines: Span::ABSENT,
            },
            usage: None,
        },
        parent: None,
        fingerprint: 0,
        below: 0,
        place: Place::NONE,
    };

    /// A statement of this text under its parent, if any, of which nothing else was found yet.
    pub fn new(text: &[u8], statement: Statement, parent: Option<u16>) -> Row
        ensures { result ≡ new_row text.now statement parent }
    {
        Row {
            statement,
            parent,
            fingerprint: names::fingerprint_of(text, statement.name),
            ..Row::BLANK
        }
    }
}

/// The number of a row, as rows hold it.
pub fn number_of(row: Option<usize>) -> Option<u16>
    requires { row_code row ≤ 65536 }
    ensures { result ≡ row }
{
    match row {
        None => None,
        Some(k) => Some(k as u16),
    }
}

/// The first `count` rows of a table.
// Contracts speak of all rows, so some of them are all and a count.
#[derive(Clone, Copy)]
pub struct Rows<'a> {
    /// All rows.
    pub all: &'a [Row],
    /// How many of them.
    pub count: usize,
    ghost fits: { count ≤ length all.now },
}

impl<'a> Rows<'a> {
    /// The first `count` of these rows.
    pub fn new(all: &'a [Row], count: usize) -> Self
        requires { count ≤ length all.now }
        ensures { (result.all.now ≡ all.now) × (result.count ≡ count) }
    {
        Rows { all, count }
    }

    /// Row k.
    pub fn row(self, k: usize) -> &'a Row
        requires { k < self.count }
        ensures { result.now ≡ row_in self.entry.all.now k }
    {
        &self.all[k]
    }

    /// The end of the siblings before row k.
    pub fn siblings_end(self, k: usize) -> usize
        requires { k < self.count }
        ensures { (result ≡ before_in self.entry.all.now k) × (result ≤ k) }
    {
        k.saturating_sub(usize::from(self.row(k).place.gap))
    }
}
