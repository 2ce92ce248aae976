//! Unions: no redefiner starts before its base (30); each base of a laid table linked with its redefiners; how the rows
//! stand in the folded lists.

ghost use Rattle.std.specs.Prelude.{◌≡◌, ◌+◌, ◌≤◌, ◌<◌, [], length};
ghost use Rattle.definition.specs.declared.TheConstants.{MOST_STATEMENTS};
ghost use Rattle.definition.specs.Fold.{total, has_member, folded_all};
ghost use Rattle.layout.specs.Places.{entry_in};
ghost use Rattle.layout.specs.Targets.{bases_at};
ghost use Rattle.rows.specs.Rows.{row_in, before_in, row_code};
ghost use Rattle.layout.specs.Checks.{check_row};
ghost use Rattle.layout.specs.Marks.{link_row, Unlinked, UnionsLinked};
ghost use Rattle.layout.specs.Shown.{standing, standing_at, list_in, shown_named, Known, Tree, Branch};
ghost use Rattle.layout.specs.Shown.{SizedRow, Measured};
ghost use Rattle.layout.specs.Single.{Tree-prop, Branch-prop};

use crate::limits;
use crate::places::{Sibling, Siblings};
use definition::{Refusal, Span};
use rows::{Row, Rows};
use text::names;

// ---------------------------------------------------------------- refusal 30

/// Refusal 30 for row i: a redefiner that starts before its base.
pub fn check_row(rows: Rows, i: usize) -> Result<(), Refusal>
    requires { (i < rows.count) × (row_code (row_in rows.all.now i).place.base ≤ i) }
    ensures { result ≡ check_row rows.entry.all.now i }
{
    if let Some(base) = rows.row(i).place.base
        && rows.row(i).place.offset < rows.row(usize::from(base)).place.offset
    {
        return Err(Refusal::StartsBeforeBase {
            position: usize::from(rows.row(i).statement.at),
        });
    }
    Ok(())
}

// ---------------------------------------------------------------- the redefiners linked

// Row k before the rows of its union so far: its base names it then.
fn link_row(rows: &mut [Row], k: usize)
    requires { (k < length rows.old) × (row_code (row_in rows.old k).place.base ≤ k) × (k < MOST_STATEMENTS) }
    ensures { rows.new ≡ link_row rows.old k }
{
    if let Some(base) = rows[k].place.base {
        let base = usize::from(base);
        rows[k].place.next = rows[base].place.next;
        rows[base].place.next = Some(k as u16);
    }
}

/// Has each row from `from` up to `to` name the next row of its union: from the last row back, since it is redefiners
/// that tell a base of themselves.
pub fn link_unions(rows: &mut [Row], from: usize, to: usize)
    requires { Unlinked rows.old from to }
    ensures { UnionsLinked rows.old from to rows.new }
{
    for k in (from..to).rev() {
        link_row(rows, k);
    }
}

// ---------------------------------------------------------------- how a row stands

/// How an entry stands in the folded list.
#[derive(Clone, Copy)]
pub enum Standing {
    /// Under its base.
    Under,
    /// By itself, a redefiner without a base.
    Alone,
    /// A base, with its redefiners.
    Base,
}

/// How the entry of row i stands in the folded list, where the siblings before it go back from `last`.
// `text` and `last` are not read: the contract names them.
pub fn standing_of(text: &[u8], rows: Rows, i: usize, last: usize) -> Standing
    requires { (i < rows.count) × Known text.now rows.all.now i last }
    ensures { result
        ≡ standing text.now (bases_at rows.entry.all.now last) (entry_in rows.entry.all.now i) }
{
    if !rows.row(i).statement.clauses.redefines.is_given() {
        return Standing::Base;
    }
    match rows.row(i).place.base {
        None => Standing::Alone,
        Some(_) => Standing::Under,
    }
}

/// A row of a record that was laid and whose unions are linked, with the text that the names stand in: its children are
/// the rows up to `end`, and those behind them are its later siblings.
#[derive(Clone, Copy)]
pub struct MarkedRow<'a> {
    /// The text that the names stand in.
    pub text: &'a [u8],
    /// The rows, with which its list ends.
    pub rows: Rows<'a>,
    /// Its number.
    pub row: usize,
    /// The end of its children.
    pub end: usize,
    ghost branch: { Branch text.now rows.all.now row end rows.count } by { Branch-prop },
    ghost known: { Known text.now rows.all.now row (before_in rows.all.now row) },
}

impl<'a> MarkedRow<'a> {
    /// This sibling in these rows.
    pub fn new(text: &'a [u8], rows: Rows<'a>, sibling: Sibling) -> Self
        requires { Branch text.now rows.all.now sibling.row sibling.end rows.count
            × Known text.now rows.all.now sibling.row (before_in rows.all.now sibling.row) }
        ensures { (result.text.now ≡ text.now) × (result.rows ≡ rows.entry) × (result.row ≡ sibling.row)
            × (result.end ≡ sibling.end) }
    {
        MarkedRow {
            text,
            rows,
            row: sibling.row,
            end: sibling.end,
        }
    }

    /// How its entry stands in the folded list.
    pub fn standing(self) -> Standing
        ensures { result ≡ standing_at self.entry.text.now self.entry.rows.all.now self.entry.row }
    {
        let last = self.rows.siblings_end(self.row);
        standing_of(self.text, self.rows, self.row, last)
    }

    // Whether its entry stands in the folded list under that name.
    fn is_shown_as(self, name: Span) -> bool
        ensures { result
            ≡ shown_named self.entry.text.now name
            (standing_at self.entry.text.now self.entry.rows.all.now self.entry.row)
            (entry_in self.entry.rows.all.now self.entry.row) }
    {
        match self.standing() {
            Standing::Under => false,
            Standing::Alone | Standing::Base => {
                names::same_spellings(self.text, name, self.rows.row(self.row).statement.name)
            }
        }
    }

    /// Its children, a list of their own.
    pub fn children(self) -> MarkedRows<'a>
        ensures { (result.text.now ≡ self.entry.text.now) × (result.rows.all.now ≡ self.entry.rows.all.now)
            × (result.rows.count ≡ self.entry.end) × (result.from ≡ self.entry.row + 1) }
    {
        MarkedRows {
            text: self.text,
            rows: Rows::new(self.rows.all, self.end),
            from: self.row + 1,
        }
    }
}

/// A list of such a record: the siblings in its rows from `from` on, and the text that the names stand in.
#[derive(Clone, Copy)]
pub struct MarkedRows<'a> {
    /// The text that the names stand in.
    pub text: &'a [u8],
    /// The rows, with which the list ends.
    pub rows: Rows<'a>,
    /// The first of its rows.
    pub from: usize,
    ghost tree: { Tree text.now rows.all.now from rows.count } by { Tree-prop },
}

impl<'a> MarkedRows<'a> {
    /// The list in these rows from `from` on.
    pub fn new(text: &'a [u8], rows: Rows<'a>, from: usize) -> Self
        requires { Tree text.now rows.all.now from rows.count }
        ensures { (result.text.now ≡ text.now) × (result.rows ≡ rows.entry) × (result.from ≡ from) }
    {
        MarkedRows { text, rows, from }
    }

    /// Its siblings, one after the other.
    // Each loop makes a `MarkedRow` of a row: the siblings behind a list's first are no `MarkedRows`.
    pub fn siblings(self) -> Siblings<'a>
        ensures { (result.rows ≡ self.entry.rows) × (result.from ≡ self.entry.from) }
    {
        Siblings::new(self.rows, self.from)
    }

    /// Whether its folded list has an entry spelled like that name.
    pub fn has_member(self, name: Span) -> bool
        ensures { result
            ≡ has_member self.entry.text.now name
            (folded_all self.entry.text.now
            (list_in self.entry.rows.all.now self.entry.from self.entry.rows.count)) }
    {
        for sibling in self.siblings() {
            if MarkedRow::new(self.text, self.rows, sibling).is_shown_as(name) {
                return true;
            }
        }
        false
    }
}

// ---------------------------------------------------------------- bytes

/// The bytes of all occurrences of row k.
pub fn row_total(rows: Rows, k: usize) -> usize
    requires { (k < rows.count) × SizedRow rows.all.now k }
    ensures { Measured (total (entry_in rows.entry.all.now k)) result }
{
    rows.row(k).place.width as usize
        * limits::times_of(rows.row(k).statement.clauses.occurs) as usize
}
