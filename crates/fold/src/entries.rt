//! The table of entries made: the folded listing of a laid and marked record, in the order of the listing, in one walk
//! over the rows.

ghost use Rattle.std.specs.Prelude.{◌≡◌, ◌+◌, ◌≤◌, ◌<◌, length, take, drop};
ghost use Rattle.definition.specs.declared.TheConstants.{MOST_STATEMENTS, LARGEST};
ghost use Rattle.definition.specs.Fold.{total, widest};
ghost use Rattle.definition.specs.Listing.{members#};
ghost use Rattle.definition.specs.Search.{entries#};
ghost use Rattle.layout.specs.Places.{entry_in};
ghost use Rattle.rows.specs.Rows.{row_in, before_in};
ghost use Rattle.layout.specs.Shown.{shown_at, IsBase};
ghost use Rattle.fold.specs.Entered.{listed, Entered};
ghost use Rattle.fold.specs.Building.{item_in, redefined, union_in, own_member, based_in, within, TableRoom};
ghost use Rattle.fold.specs.Building.{Built, own_item, union_item, ItemOpen, ItemClosed, Roomy};

use crate::table::{Mark, TableEntry};
use layout::places::Sibling;
use layout::unions::{MarkedRow, MarkedRows, Standing};
use layout::{places, unions};

/// A list in the table, as far as it is made. Each level of the walk has its own on the stack, so it is small.
#[derive(Clone, Copy)]
pub struct Block {
    /// The place after it.
    pub next: u32,
    /// How deep it stands: 0 at the top.
    pub depth: u32,
    /// How many of its entries stand at that depth.
    pub count: u32,
    /// The widest of those, in bytes.
    pub widest: u32,
}

impl Block {
    // The members of the next entry begin, one deeper.
    fn within(self) -> Block
        requires { (self.next < 65536) × (self.depth ≤ self.next) }
        ensures { result ≡ within self }
    {
        Block {
            next: self.next + 1,
            depth: self.depth + 1,
            count: 0,
            widest: 0,
        }
    }

    // The item x of that width, put before its members, which are there and end where `inner` does, counts in it.
    fn close(self, inner: Block, x: TableEntry, width: u32, entries: &mut [TableEntry]) -> Block
        requires { (self.next < length entries.old) × (self.count < 65536) × (self.widest ≤ LARGEST)
            × (width ≤ LARGEST) }
        ensures { ItemClosed entries.old self inner x width result entries.new }
    {
        entries[self.next as usize] = x;
        Block {
            next: inner.next,
            depth: self.depth,
            count: self.count + 1,
            widest: self.widest.max(width),
        }
    }
}

// The item of a row before its members, by itself or as a member of the union that starts there.
fn item_of(row: MarkedRow, union: Option<usize>, b: Block, inner: Block) -> TableEntry
    requires { (b.next < inner.next) × (inner.next < 65536) × (inner.count ≤ inner.next) × (b.depth ≤ b.next)
        × (row.row < MOST_STATEMENTS) }
    ensures { result ≡ own_item row.entry.rows.all.now row.entry.row union b inner }
{
    let mark = match union {
        None => Mark::Own,
        Some(start) => Mark::Member {
            offset: (row.rows.row(row.row).place.offset as usize).saturating_sub(start) as u32,
        },
    };
    TableEntry {
        row: row.row as u16,
        mark,
        members: inner.count as u16,
        below: (inner.next - b.next - 1) as u16,
        depth: b.depth as u16,
    }
}

// A row closed, by itself or as a member of the union that starts there.
fn close_item(
    row: MarkedRow,
    union: Option<usize>,
    entries: &mut [TableEntry],
    b: Block,
    inner: Block,
) -> Block
    requires { ItemOpen entries.old b inner row.row }
    ensures { ItemClosed entries.old b inner (own_item row.entry.rows.all.now row.entry.row union b inner)
        (total (entry_in row.entry.rows.all.now row.entry.row)) result entries.new }
{
    let x = item_of(row, union, b, inner);
    let width = unions::row_total(row.rows, row.row) as u32;
    b.close(inner, x, width, entries)
}

// The union of a row closed: it is as wide as its widest member.
fn close_union(row: MarkedRow, entries: &mut [TableEntry], b: Block, inner: Block) -> Block
    requires { ItemOpen entries.old b inner row.row }
    ensures { ItemClosed entries.old b inner (union_item row.entry.rows.all.now row.entry.row b inner) inner.widest
        result entries.new }
{
    let own = item_of(row, None, b, inner);
    let x = TableEntry {
        mark: Mark::Union {
            width: inner.widest,
        },
        ..own
    };
    b.close(inner, x, inner.widest, entries)
}

// ---------------------------------------------------------------- the walk

// Builds the members of a row, if it has any.
#[cycle(build)]
fn build_inner(row: MarkedRow, entries: &mut [TableEntry], b: Block) -> Block
    requires { TableRoom entries.old b (entries# (listed row.text.now row.rows.all.now (row.row + 1) row.end))
        row.end }
    ensures { Built (row.entry.row + 1) row.entry.end row.entry.rows.all.now entries.old b
        (listed row.entry.text.now row.entry.rows.all.now (row.entry.row + 1) row.entry.end) result entries.new }
{
    // Most rows have none, and no list is walked for them.
    let first = row.row + 1;
    if row.end <= first {
        return b;
    }
    build_list(row.children(), entries, b)
}

// Builds a row with its members, by itself or as a member of the union that starts there.
#[cycle(build)]
fn build_item(row: MarkedRow, union: Option<usize>, entries: &mut [TableEntry], b: Block) -> Block
    requires { TableRoom entries.old b (entries# (item_in row.text.now row.rows.all.now row.row row.end union))
        row.end }
    ensures { Built row.entry.row row.entry.end row.entry.rows.all.now entries.old b
        (item_in row.entry.text.now row.entry.rows.all.now row.entry.row row.entry.end union) result entries.new }
{
    let inner = build_inner(row, entries, b.within());
    close_item(row, union, entries, b, inner)
}

// Builds the redefiners of a base among its later siblings: each names the next.
#[cycle(build)]
fn build_redefiners(base: MarkedRow, entries: &mut [TableEntry], b: Block) -> Block
    requires { IsBase base.rows.all.now base.row
        × TableRoom entries.old b
        (entries# (redefined base.text.now base.rows.all.now base.row base.end base.rows.count)) base.rows.count }
    ensures { Built base.entry.row base.entry.rows.count base.entry.rows.all.now entries.old b
        (redefined base.entry.text.now base.entry.rows.all.now base.entry.row base.entry.end base.entry.rows.count)
        result entries.new }
{
    let start = base.rows.row(base.row).place.offset as usize;
    let mut r = b;
    let mut next = base.rows.row(base.row).place.next;
    // std's `successors` counts as endless, so that no `for` over it is proved to end.
    while let Some(row) = next {
        let row = usize::from(row);
        let end = places::next_of(base.rows, row);
        let redefiner = MarkedRow::new(base.text, base.rows, Sibling { row, end });
        r = build_item(redefiner, Some(start), entries, r);
        next = base.rows.row(row).place.next;
    }
    r
}

// Whether a row has a member of its own name.
fn has_own(row: MarkedRow) -> bool
    ensures { result ≡ own_member row.entry.text.now row.entry.rows.all.now row.entry.row row.entry.end }
{
    row.children()
        .has_member(row.rows.row(row.row).statement.name)
}

// Builds what a base gives to the members of its union: its own members, where one of them has its name, or itself.
#[cycle(build)]
fn build_based(base: MarkedRow, entries: &mut [TableEntry], b: Block) -> Block
    requires { TableRoom entries.old b (entries# (based_in base.text.now base.rows.all.now base.row base.end))
        base.end }
    ensures { Built base.entry.row base.entry.end base.entry.rows.all.now entries.old b
        (based_in base.entry.text.now base.entry.rows.all.now base.entry.row base.entry.end) result entries.new }
{
    if has_own(base) {
        build_list(base.children(), entries, b)
    } else {
        let start = base.rows.row(base.row).place.offset as usize;
        build_item(base, Some(start), entries, b)
    }
}

// Builds the members of the union of a base with its redefiners: what the base gives to them, and then the redefiners.
#[cycle(build)]
fn build_members(base: MarkedRow, entries: &mut [TableEntry], b: Block) -> Block
    requires { IsBase base.rows.all.now base.row
        × TableRoom entries.old b
        (entries# (union_in base.text.now base.rows.all.now base.row base.end base.rows.count)) base.rows.count }
    ensures { Built base.entry.row base.entry.rows.count base.entry.rows.all.now entries.old b
        (union_in base.entry.text.now base.entry.rows.all.now base.entry.row base.entry.end base.entry.rows.count)
        result entries.new }
{
    let next = build_based(base, entries, b);
    build_redefiners(base, entries, next)
}

// Builds what a row comes to in the folded list.
#[cycle(build)]
fn build_shown(row: MarkedRow, entries: &mut [TableEntry], b: Block) -> Block
    requires { TableRoom entries.old b
        (entries# (shown_at row.text.now row.rows.all.now row.row row.end row.rows.count
        (before_in row.rows.all.now row.row))) row.rows.count }
    ensures { Built row.entry.row row.entry.rows.count row.entry.rows.all.now entries.old b
        (shown_at row.entry.text.now row.entry.rows.all.now row.entry.row row.entry.end row.entry.rows.count
        (before_in row.entry.rows.all.now row.entry.row)) result entries.new }
{
    match row.standing() {
        Standing::Under => b,
        Standing::Alone => build_item(row, None, entries, b),
        Standing::Base => match row.rows.row(row.row).place.next {
            None => build_item(row, None, entries, b),
            Some(_) => {
                let inner = build_members(row, entries, b.within());
                close_union(row, entries, b, inner)
            }
        },
    }
}

// Builds the folded list of a list, each entry with its members.
#[cycle(build)]
fn build_list(list: MarkedRows, entries: &mut [TableEntry], b: Block) -> Block
    requires { TableRoom entries.old b
        (entries# (listed list.text.now list.rows.all.now list.from list.rows.count)) list.rows.count }
    ensures { Built list.entry.from list.entry.rows.count list.entry.rows.all.now entries.old b
        (listed list.entry.text.now list.entry.rows.all.now list.entry.from list.entry.rows.count)
        result entries.new }
{
    let mut r = b;
    for sibling in list.siblings() {
        let row = MarkedRow::new(list.text, list.rows, sibling);
        r = build_shown(row, entries, r);
    }
    r
}

// ---------------------------------------------------------------- the table of a record

/// Makes the table of a record, whose fields are this list, and leaves what stands behind it. Answers how many entries
/// it has, how many of them stand at the top, and how wide the widest of those is.
pub fn make_entries(list: MarkedRows, entries: &mut [TableEntry]) -> Block
    requires { (list.rows.count ≤ MOST_STATEMENTS) × Roomy entries.old list.rows.count }
    ensures inside { result.next ≤ length entries.new }
    ensures entered { Entered list.entry.text.now list.entry.rows.all.now list.entry.from list.entry.rows.count
        (take result.next entries.new) }
    ensures count { result.count
        ≡ members# (listed list.entry.text.now list.entry.rows.all.now list.entry.from list.entry.rows.count) }
    ensures widest { result.widest
        ≡ widest (listed list.entry.text.now list.entry.rows.all.now list.entry.from list.entry.rows.count) }
    ensures top { result.depth ≡ 0 }
    ensures rest { drop result.next entries.new ≡ drop result.next entries.old }
{
    let none = Block {
        next: 0,
        depth: 0,
        count: 0,
        widest: 0,
    };
    build_list(list, entries, none)
}
