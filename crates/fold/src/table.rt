//! The table of entries: the folded listing, each entry as an item that names its row, in the order of the listing.
//! What is asked of the folded listing is asked of the table. `entries` makes its items.

ghost use Rattle.std.specs.Prelude.{◌≡◌, ◌+◌, ◌≤◌, ◌<◌, length, All, MatchResult};
ghost use Rattle.std.specs.List.{list_any};
ghost use Rattle.definition.specs.Fold.{entry_end, total};
ghost use Rattle.definition.specs.Basic.{is_given, Ok, Err};
ghost use Rattle.definition.specs.Listing.{entry_bytes};
ghost use Rattle.fold.specs.Puts.{line_of};
ghost use Rattle.output.specs.Puts.{Puts};
ghost use Rattle.fold.specs.Entered.{flat_bytes, flat_varies, top_end, flat_length, flat_fits, own_of, shown_of};
ghost use Rattle.fold.specs.Entered.{shown_all, Sound};

use crate::listing;
use crate::listing::Line;
use definition::{Entry, FieldKind, LARGEST, Refusal, Span};
use layout::{places, unions};
use output::Sink;
use rows::Rows;

/// What an item stands for: its row's own entry, the same as a member of a union, or the union.
#[derive(Clone, Copy)]
pub enum Mark {
    /// Its row's own entry.
    Own,
    /// The same as a member of a union.
    Member {
        /// Where it starts in the union, in bytes.
        offset: u32,
    },
    /// The union of the row and its redefiners.
    Union {
        /// Its bytes.
        width: u32,
    },
}

/// An entry in the table. There are no more than 1,200.
#[derive(Clone, Copy)]
pub struct TableEntry {
    /// What it stands for.
    pub mark: Mark,
    /// The row that it names.
    pub row: u16,
    /// How many members it has.
    pub members: u16,
    /// How many entries stand below it.
    pub below: u16,
    /// How deep it stands.
    pub depth: u16,
}

// ---------------------------------------------------------------- an item

/// An item, and the rows among which it names one.
#[derive(Clone, Copy)]
pub struct RowItem<'a> {
    /// The rows.
    pub rows: Rows<'a>,
    /// The item.
    pub item: &'a TableEntry,
    ghost there: { item.now.row < rows.count },
}

impl<'a> RowItem<'a> {
    // The row that it names.
    fn row(self) -> usize
        ensures { (result ≡ self.entry.item.now.row) × (result < self.entry.rows.count) }
    {
        usize::from(self.item.row)
    }

    // What the listing says of it.
    fn line(self) -> Line
        ensures { result ≡ line_of (own_of self.entry.rows.all.now self.entry.item.now) }
    {
        let row = self.rows.row(self.row());
        let clauses = row.statement.clauses;
        let line = Line {
            kind: row.place.kind,
            name: row.statement.name,
            offset: row.place.offset as usize,
            width: row.place.width as usize,
            occurs: clauses.occurs,
            depending: clauses.depending,
            redefines: clauses.redefines,
            picture: clauses.picture,
        };
        match self.item.mark {
            Mark::Own => line,
            Mark::Member { offset } => Line {
                offset: offset as usize,
                redefines: Span::ABSENT,
                ..line
            },
            Mark::Union { width } => Line {
                kind: FieldKind::Group,
                width: width as usize,
                occurs: None,
                depending: Span::ABSENT,
                redefines: Span::ABSENT,
                picture: Span::ABSENT,
                ..line
            },
        }
    }

    /// The entry that it stands for: what the listing says of it, and what it doesn't say.
    pub fn entry(self) -> Entry
        ensures { result ≡ own_of self.entry.rows.all.now self.entry.item.now }
    {
        let own = places::entry_at(self.rows.row(self.row()));
        match self.item.mark {
            Mark::Own => own,
            Mark::Member { offset } => Entry {
                offset: offset as usize,
                redefines: Span::ABSENT,
                ..own
            },
            Mark::Union { width } => Entry {
                width: width as usize,
                kind: FieldKind::Group,
                digits: None,
                picture: Span::ABSENT,
                usage: Span::ABSENT,
                sign: None,
                occurs: None,
                depending: Span::ABSENT,
                redefines: Span::ABSENT,
                over: Span::ABSENT,
                slack: 0,
                slack_at_end: 0,
                folded: true,
                ..own
            },
        }
    }

    // Puts its bytes.
    fn put(self, sink: &mut Sink)
        requires { sink.old.at ≤ 4294967295 }
        ensures { Puts sink.old
            (entry_bytes (own_of self.entry.rows.all.now self.entry.item.now) self.entry.item.now.members)
            sink.new }
    {
        listing::put_line(sink, self.line(), self.item.members as usize);
    }

    /// Whether it has a DEPENDING ON: that of its row, and none for a union.
    pub fn depends(self) -> bool
        ensures { result ≡ is_given (own_of self.entry.rows.all.now self.entry.item.now).depending }
    {
        match self.item.mark {
            Mark::Union { .. } => false,
            _ => self
                .rows
                .row(self.row())
                .statement
                .clauses
                .depending
                .is_given(),
        }
    }

    /// Where it starts in its list, in bytes.
    pub fn start(self) -> usize
        ensures { (result ≡ (own_of self.entry.rows.all.now self.entry.item.now).offset)
            × (result < 4294967296) }
    {
        match self.item.mark {
            Mark::Member { offset } => offset as usize,
            _ => self.rows.row(self.row()).place.offset as usize,
        }
    }

    // Where it ends: its offset and what it reserves.
    fn end(self) -> usize
        requires { total (own_of self.rows.all.now self.item.now) ≤ LARGEST }
        ensures { result ≡ entry_end (own_of self.entry.rows.all.now self.entry.item.now) }
    {
        let start = self.start();
        if self.depends() {
            return start;
        }
        start
            + match self.item.mark {
                Mark::Union { width } => width as usize,
                _ => unions::row_total(self.rows, self.row()),
            }
    }
}

// ---------------------------------------------------------------- the table

/// The entries of a listing in its order, and the rows that they name.
#[derive(Clone, Copy)]
pub struct Table<'a> {
    /// The rows.
    pub rows: Rows<'a>,
    /// The entries, in the listing's order.
    pub items: &'a [TableEntry],
    ghost sound: { All (Sound rows.all.now rows.count) items.now },
}

impl<'a> Table<'a> {
    /// An item that names one of its rows, with the rows.
    pub fn row_item(self, item: &'a TableEntry) -> RowItem<'a>
        requires { item.now.row < self.rows.count }
        ensures { (result.rows ≡ self.entry.rows) × (result.item.now ≡ item.now) }
    {
        RowItem {
            rows: self.rows,
            item,
        }
    }

    /// Puts the bytes of the entries.
    #[tactic(auto, using(crate::proofs::LoopLaws::putting))]
    pub fn put(self, sink: &mut Sink)
        requires { sink.old.at + length (flat_bytes (shown_all self.rows.all.now self.items.now)) < 4294967296 }
        ensures { Puts sink.old (flat_bytes (shown_all self.entry.rows.all.now self.entry.items.now)) sink.new }
    {
        for item in self.items {
            self.row_item(item).put(sink);
        }
    }

    /// Whether one of the entries has a DEPENDING ON.
    pub fn varies(self) -> bool
        ensures { result ≡ list_any (λ x. is_given (own_of self.entry.rows.all.now x).depending)
            self.entry.items.now }
    {
        self.items.iter().any(
            |item|
                requires { item.now.row < self.rows.count }
            { self.row_item(item).depends() },
        )
    }

    // Where an entry ends, if it stands at the top; else 0.
    // 0 takes nothing from a largest end.
    fn top_end(self, item: &TableEntry) -> usize
        requires { Sound self.rows.all.now self.rows.count item.now }
        ensures { result ≡ top_end (shown_of self.entry.rows.all.now item.now) }
    {
        if item.depth != 0 {
            return 0;
        }
        self.row_item(item).end()
    }

    /// How long the record is, in bytes: the largest end at the top.
    pub fn length(self) -> usize
        ensures { result ≡ flat_length (shown_all self.entry.rows.all.now self.entry.items.now) }
    {
        self.items
            .iter()
            .fold(0, |long: usize, item| long.max(self.top_end(item)))
    }

    /// 29 for the first entry at the top that ends above `LARGEST`.
    #[tactic(auto, using(crate::proofs::LoopLaws::fitting))]
    pub fn ends_fit(self) -> Result<(), Refusal>
        ensures { result ≡ flat_fits (shown_all self.entry.rows.all.now self.entry.items.now) }
    {
        for item in self.items {
            if LARGEST < self.top_end(item) {
                return Err(Refusal::TooLarge {
                    position: usize::from(self.rows.row(item.row as usize).statement.at),
                });
            }
        }
        Ok(())
    }

    /// How long the record is, or 29 for the first entry at the top that ends above `LARGEST`: which one that is, is
    /// asked only where one does.
    #[tactic(auto, using(crate::proofs::LoopLaws::fitting))]
    pub fn fitting_length(self) -> Result<usize, Refusal>
        ensures { MatchResult result
            (λ n. (n ≡ flat_length (shown_all self.entry.rows.all.now self.entry.items.now))
            × (flat_fits (shown_all self.entry.rows.all.now self.entry.items.now) ≡ Ok tt))
            (λ r. flat_fits (shown_all self.entry.rows.all.now self.entry.items.now) ≡ Err r) }
    {
        let length = self.length();
        if length <= LARGEST {
            return Ok(length);
        }
        self.ends_fit()?;
        Ok(length)
    }
}
