//! The rows as entries: the siblings of a list, the end of each row's children, and an item's entry.

ghost use Rattle.std.specs.Prelude.{◌≡◌, ◌+◌, ◌-◌, ◌^◌, ◌≤◌, ◌<◌, length, MatchOption};
ghost use Rattle.std.specs.Iterator.{at_most};
ghost use Rattle.definition.specs.Layout.{word_of, entry_of};
ghost use Rattle.layout.specs.Places.{entry_at};
ghost use Rattle.layout.specs.Children.{ChildrenEnd, Numbered, ListCounted, ListCounted-prop, BelowPut};

use definition::{Entry, NamedUsage, Pictured, Span, Statement};
use rows::{Row, Rows};

/// The end of the children of row i, which counts the rows below it.
pub fn next_of(rows: Rows, i: usize) -> usize
    requires { Numbered rows.all.now i rows.count }
    ensures { ChildrenEnd rows.entry.all.now i rows.entry.count result }
{
    i + 1 + usize::from(rows.row(i).below)
}

/// A row of a list, and the end of its children.
#[derive(Clone, Copy)]
pub struct Sibling {
    /// The row.
    pub row: usize,
    /// The end of its children.
    pub end: usize,
}

/// The siblings that are still to come: those in the rows from `from` on, each of which counts the rows below it.
#[derive(Clone, Copy)]
pub struct Siblings<'a> {
    /// The rows, with which the list ends.
    pub rows: Rows<'a>,
    /// The next sibling's row, or the end of the rows.
    pub from: usize,
    ghost counted: { ListCounted rows.all.now from rows.count } by { ListCounted-prop rows.all.now from rows.count },
}

impl<'a> Siblings<'a> {
    /// The siblings in these rows from `from` on.
    pub fn new(rows: Rows<'a>, from: usize) -> Self
        requires { ListCounted rows.all.now from rows.count }
        ensures { (result.rows ≡ rows.entry) × (result.from ≡ from) }
    {
        Siblings { rows, from }
    }
}

impl<'a> Iterator for Siblings<'a> {
    type Item = Sibling;

    ghost next_gives = { λ s r t. MatchOption r ((s.rows.count ≤ s.from) × (t ≡ s))
        (λ x. (s.from < s.rows.count) × (x.row ≡ s.from) × ChildrenEnd s.rows.all.now s.from s.rows.count x.end
        × (t.rows ≡ s.rows) × (t.from ≡ x.end)) };

    ghost remaining = { λ s. at_most (s.rows.count - s.from) };

    fn next(&mut self) -> Option<Sibling> {
        let row = self.from;
        if self.rows.count <= row {
            return None;
        }
        let end = next_of(self.rows, row);
        self.from = end;
        Some(Sibling { row, end })
    }
}

// The end of the children of row i, where the rows after it count the rows below them.
fn end_of(rows: Rows, i: usize) -> usize
    requires { (i < rows.count) × ListCounted rows.all.now (i + 1) rows.count }
    ensures { ChildrenEnd rows.entry.all.now i rows.entry.count result }
{
    let level = rows.row(i).statement.level;
    for sibling in Siblings::new(rows, i + 1) {
        if rows.row(sibling.row).statement.level <= level {
            return sibling.row;
        }
    }
    rows.count
}

/// Stores in each of the first n rows how many rows stand below it, from the last one back.
pub fn count_below(rows: &mut [Row], n: usize)
    requires { (n ≤ length rows.old) × (n < 65536) }
    ensures { BelowPut rows.old n rows.new }
{
    for row in (0..n).rev() {
        let end = end_of(Rows::new(rows, n), row);
        rows[row].below = (end - row - 1) as u16;
    }
}

/// The word that names a usage.
fn word_of(named: Option<NamedUsage>) -> Span
    ensures { result ≡ word_of named }
{
    match named {
        Some(n) => n.word,
        None => Span::ABSENT,
    }
}

/// The entry in a row.
pub fn entry_at(row: &Row) -> Entry
    ensures { result ≡ entry_at row.now }
{
    let s = row.statement;
    let place = row.place;
    Entry {
        at: usize::from(s.at),
        level: s.level,
        name: s.name,
        offset: place.offset as usize,
        width: place.width as usize,
        kind: place.kind,
        digits: place.digits,
        picture: s.clauses.picture,
        usage: word_of(s.usage),
        sign: s.clauses.sign,
        occurs: s.clauses.occurs,
        depending: s.clauses.depending,
        redefines: s.clauses.redefines,
        over: s.clauses.redefines,
        slack: place.slack as usize,
        slack_at_end: usize::from(place.slack_at_end),
        folded: false,
    }
}

/// An item's entry, after so much slack, whose list is `inner` bytes wide and is followed by so much slack.
pub fn entry_of(
    s: Statement,
    c: Pictured,
    offset: usize,
    slack: usize,
    inner: usize,
    slack_at_end: usize,
) -> Entry
    requires { c.width + inner + slack_at_end < 2 ^ 64 }
    ensures { result ≡ entry_of s c offset slack inner slack_at_end }
{
    Entry {
        at: usize::from(s.at),
        level: s.level,
        name: s.name,
        offset,
        width: c.width + inner + slack_at_end,
        kind: c.kind,
        digits: c.digits,
        picture: s.clauses.picture,
        usage: word_of(s.usage),
        sign: s.clauses.sign,
        occurs: s.clauses.occurs,
        depending: s.clauses.depending,
        redefines: s.clauses.redefines,
        over: s.clauses.redefines,
        slack,
        slack_at_end,
        folded: false,
    }
}
