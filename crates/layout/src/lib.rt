//! Sibling lists laid out in the rows: the place of each item, and the checks of each list. In modules what an item
//! holds, what a REDEFINES names, where an item ends or that it is too large, where it stands, and the redefiners of a
//! base, which make a union with it. Leans on `rows` and `picture`.
#![tactic(auto)]

ghost use Rattle.std.specs.Prelude.{◌≡◌, ◌+◌, ◌-◌, ◌%◌, ◌≤◌, ◌<◌, length, if◌then◌else◌, MatchResult};
ghost use Rattle.definition.specs.declared.TheConstants.{DEEPEST, LARGEST};
ghost use Rattle.definition.specs.Basic.{is_given, Err};
ghost use Rattle.definition.specs.Layout.{slack_from};
ghost use Rattle.layout.specs.Targets.{seen_at, target_from, start_of, target_in};
ghost use Rattle.layout.specs.Fingerprints.{Fingerprinted};
ghost use Rattle.layout.specs.Bare.{starts};
ghost use Rattle.layout.specs.Outcomes.{Begun, place_row, lay_item, lay_inner, lay_table, item_of, list_of, Room};
ghost use Rattle.rows.specs.Rows.{row_of_code, statement_at};

use crate::redefines::{FingerprintedRows, Start};
use definition::{Pictured, Refusal, Span, Statement};
use rows::{Place, Row, Rows};

pub mod contents;
pub mod limits;
pub mod places;
pub mod redefines;
pub mod unions;

/// Where the next sibling of a list goes: after the siblings up to row `last`, and from the cursor on, unless it
/// redefines one of them. Of the list's place in the record the remainder by 8 is enough: no alignment is larger.
// `last` is 0 where there is no sibling yet: it ends a range of rows.
#[derive(Clone, Copy)]
struct NextPlace {
    base: usize,
    last: usize,
    cursor: usize,
    ghost within: { (base < 8) × (cursor ≤ LARGEST) },
}

impl NextPlace {
    // In a list of that remainder, after the siblings up to this row, and from this cursor on.
    fn at(base: usize, last: usize, cursor: usize) -> NextPlace
        requires { (base < 8) × (cursor ≤ LARGEST) }
        ensures { (result.base ≡ base) × (result.last ≡ last) × (result.cursor ≡ cursor) }
    {
        NextPlace { base, last, cursor }
    }

    // Where an item starts: over the sibling that it redefines (28), or from the cursor on, after the fewest bytes that
    // bring its place in the record to a multiple.
    fn start_of(
        self,
        fingerprinted: FingerprintedRows,
        s: Statement,
        multiple: usize,
    ) -> Result<Start, Refusal>
        requires { (self.last ≤ fingerprinted.rows.count) × (0 < multiple) × (multiple ≤ LARGEST) }
        ensures { (start_of result
            ≡ starts fingerprinted.entry.text.now s multiple (seen_at fingerprinted.entry.rows.all.now self.last) self.base self.cursor)
            × (target_in result
            ≡ row_of_code (target_from fingerprinted.entry.text.now s.clauses.redefines fingerprinted.entry.rows.all.now self.last))
            × (target_from fingerprinted.entry.text.now s.clauses.redefines fingerprinted.entry.rows.all.now self.last
            ≤ self.last) }
    {
        if s.clauses.redefines.is_given() {
            return fingerprinted.start_over(s.clauses.redefines, usize::from(s.at), self.last);
        }
        Ok(Start {
            target: None,
            offset: self.cursor + contents::fewest(multiple, self.base + self.cursor),
        })
    }

    // The remainder of the place of a list that starts at an offset of this one.
    fn base_at(self, offset: usize) -> usize
        ensures { (result ≡ (self.base + offset) % 8) × (result < 8) }
    {
        (self.base + offset % 8) % 8
    }

    // The slack directly before an item: the bytes from the cursor to the item, and none before a redefiner.
    fn slack_to(self, s: Statement, offset: usize) -> usize
        ensures { result ≡ slack_from self.cursor s offset }
    {
        if s.clauses.redefines.is_given() {
            return 0;
        }
        offset.saturating_sub(self.cursor)
    }

    // The cursor after an entry: a REDEFINES never moves it.
    fn advanced(self, redefines: Span, end: usize) -> usize
        ensures { result ≡ (if is_given redefines then self.cursor else end) }
    {
        if redefines.is_given() {
            self.cursor
        } else {
            end
        }
    }
}

/// Where an item begins, and what was found among its earlier siblings.
#[derive(Clone, Copy)]
pub struct Beginning {
    /// Where it starts in its list.
    pub offset: usize,
    /// The sibling that its REDEFINES names, if any.
    pub target: Option<u16>,
    /// The base that it redefines, if any.
    pub base: Option<u16>,
    /// The latest sibling before it without REDEFINES, if any.
    pub plain: Option<u16>,
}

/// An item that has its place.
#[derive(Clone, Copy)]
pub struct LaidItem {
    /// The cursor after it.
    pub cursor: usize,
    /// Where it ends.
    pub end: usize,
    /// The largest alignment in it, at any depth.
    pub alignment: usize,
}

/// A list whose items have their places.
#[derive(Clone, Copy)]
pub struct LaidList {
    /// How wide it is.
    pub width: usize,
    /// The largest alignment in it, at any depth.
    pub alignment: usize,
    /// 30 for its first redefiner that starts before its base.
    pub checked: Result<(), Refusal>,
}

// Where row i begins, the next sibling: its siblings are searched once.
fn begin(
    text: &[u8],
    rows: &[Row],
    i: usize,
    next: NextPlace,
    multiple: usize,
) -> Result<Beginning, Refusal>
    requires { (i < length rows.now) × (next.last ≤ i) × (0 < multiple) × (multiple ≤ LARGEST)
        × Fingerprinted text.now rows.now i × (i < 65536) }
    ensures { MatchResult result (Begun text.now rows.now i multiple next.base next.last next.cursor)
        (λ r. starts text.now (statement_at rows.now i) multiple (seen_at rows.now next.last) next.base next.cursor ≡ Err r) }
{
    let s = rows[i].statement;
    let fingerprinted = FingerprintedRows::new(text, Rows::new(rows, i));
    let start = next.start_of(fingerprinted, s, multiple)?;
    let base = fingerprinted.base_of(s.clauses.redefines, start.target);
    Ok(Beginning {
        offset: start.offset,
        target: rows::number_of(start.target),
        base: rows::number_of(base),
        plain: redefines::plain_after(fingerprinted.rows, next.last),
    })
}

// The item of row i placed, after the rows below it: 29.
fn place_item(
    rows: &mut [Row],
    i: usize,
    next: NextPlace,
    begun: Beginning,
    c: Pictured,
    inner: LaidList,
) -> Result<LaidItem, Refusal>
    requires { (i < length rows.old) × (next.last ≤ i) × (i < 65536) × (c.width ≤ LARGEST)
        × (inner.width ≤ LARGEST) × (0 < inner.alignment) × (inner.alignment ≤ 8) }
    ensures { item_of result rows.new ≡ place_row rows.old i next.last next.cursor begun c inner }
{
    let s = rows[i].statement;
    let multiple = contents::width_multiple(s, inner.alignment);
    let e = places::entry_of(
        s,
        c,
        begun.offset,
        next.slack_to(s, begun.offset),
        inner.width,
        contents::fewest(multiple, c.width + inner.width),
    );
    let end = limits::entry_end(e)?;
    rows[i].place = Place {
        offset: e.offset as u32,
        width: e.width as u32,
        slack: e.slack as u32,
        slack_at_end: e.slack_at_end as u8,
        kind: e.kind,
        digits: e.digits,
        gap: (i - next.last) as u16,
        base: begun.base,
        plain: begun.plain,
        target: begun.target,
        next: None,
    };
    Ok(LaidItem {
        cursor: next.advanced(s.clauses.redefines, end),
        end,
        alignment: contents::place_multiple(s, c).max(inner.alignment),
    })
}

// The list in the rows from `from` up to `to`, below an item, which starts at a place of that remainder: 20 where it is
// too deep; then the list and its check.
#[cycle(layout)]
fn lay_inner(
    text: &[u8],
    rows: &mut [Row],
    from: usize,
    to: usize,
    depth_left: u32,
    base: usize,
) -> Result<LaidList, Refusal>
    requires { Room text.now rows.old from to × (depth_left ≤ DEEPEST) × (base < 8) }
    ensures { list_of result rows.new ≡ lay_inner text.now rows.old from to (DEEPEST - depth_left) base }
{
    if to <= from {
        return Ok(LaidList {
            width: 0,
            alignment: 1,
            checked: Ok(()),
        });
    }
    if depth_left == 0 {
        let position = usize::from(rows[from].statement.at);
        return Err(Refusal::TooDeep { position });
    }
    let inner = lay_list(text, rows, from, to, depth_left - 1, base)?;
    inner.checked?;
    Ok(inner)
}

// Lays out row i, whose children are the rows up to j, as the next sibling: what it holds, where it begins (28), then its
// list, and then its place.
#[cycle(layout)]
fn lay_item(
    text: &[u8],
    rows: &mut [Row],
    i: usize,
    j: usize,
    depth_left: u32,
    next: NextPlace,
) -> Result<LaidItem, Refusal>
    requires { (i < j) × Room text.now rows.old (i + 1) j × (depth_left ≤ DEEPEST) × (next.last ≤ i) }
    ensures { item_of result rows.new
        ≡ lay_item text.now rows.old i j (DEEPEST - depth_left) next.base next.last next.cursor }
{
    let s = rows[i].statement;
    let first = i + 1;
    let c = contents::content(text, s, first < j)?;
    let begun = begin(text, rows, i, next, contents::place_multiple(s, c))?;
    let inner = lay_inner(text, rows, first, j, depth_left, next.base_at(begun.offset))?;
    place_item(rows, i, next, begun, c, inner)
}

/// Lays out the siblings in the rows from `from` up to `to`, a list that starts at a place of that remainder by 8: each
/// starts at the cursor, aligned in the record where SYNC says so, or over the sibling that it redefines, and the list is
/// as wide as its largest end. 30 is told beside the width, since any refusal of a later item comes before it. The
/// remaining depth falls at each group.
#[cycle(layout)]
pub fn lay_list(
    text: &[u8],
    rows: &mut [Row],
    from: usize,
    to: usize,
    depth_left: u32,
    base: usize,
) -> Result<LaidList, Refusal>
    requires { Room text.now rows.old from to × (depth_left ≤ DEEPEST) × (base < 8) }
    ensures { list_of result rows.new
        ≡ lay_table text.now rows.old from to (DEEPEST - depth_left) base }
{
    let mut i = from;
    let mut next = NextPlace::at(base, 0, 0);
    let mut reach = 0;
    let mut alignment = 1;
    let mut checked = Ok(());
    // The body writes the rows, so no iterator over siblings can hold them.
    while i < to {
        let j = places::next_of(Rows::new(rows, to), i);
        let item = lay_item(text, rows, i, j, depth_left, next)?;
        next = NextPlace::at(base, i + 1, item.cursor);
        reach = reach.max(item.end);
        alignment = alignment.max(item.alignment);
        checked = checked.and(unions::check_row(Rows::new(rows, to), i));
        i = j;
    }
    Ok(LaidList {
        width: reach,
        alignment,
        checked,
    })
}
