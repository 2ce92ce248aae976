//! The details of a record's entries, written from its table of entries: a head of 17 bytes, then 63 for each, and only
//! where all of them have room.

ghost use Rattle.std.specs.Prelude.{◌≡◌, [], ◌≤◌, ◌<◌, length, get_or, replicate};
ghost use Rattle.definition.specs.Calls.{after_writing, fitting, left};
ghost use Rattle.definition.specs.Details.{detail, detail_bytes, digits_bytes, root_bytes};
ghost use Rattle.definition.specs.Tree.{root};
ghost use Rattle.layout.specs.Places.{rows_forest};
ghost use Rattle.output.specs.Puts.{Countable, Puts};
ghost use Rattle.fold.specs.Entered.{shown_of, shown_all};
ghost use Rattle.reports.specs.Detailed.{standing_bytes, clause_places, held_bytes, head_bytes, farthest, FirstByte, detail_in, flat_details};
ghost use Rattle.reports.specs.Detailed.{Shallow, details_of, Dropped, Detailable};

use definition::{Digits, Entry, Refusal, Statement};
use fold::table::{RowItem, Table};
use output::{Sink, Written};
use record::LaidRecord;
use rows::kinds::Coded;

// How many depths there are: the lists of a listing nest at most 130 deep, and each entry opens one more.
const DEPTHS: usize = 131;

// ---------------------------------------------------------------- an entry

// Where the entry stands: its statement's position and level, its depth, whether folding made it, the entries below it.
fn put_standing(sink: &mut Sink, e: Entry, depth: u8, below: usize)
    requires { Countable sink.old.at (standing_bytes (detail e depth below 0)) }
    ensures { Puts sink.old (standing_bytes (detail e depth below 0)) sink.new }
{
    sink.number(e.at);
    sink.bytes([e.level, depth, e.folded.code()]);
    sink.number(below);
}

// The places of its picture, its REDEFINES and its DEPENDING ON.
fn put_clauses(sink: &mut Sink, e: Entry)
    requires { Countable sink.old.at (clause_places e) }
    ensures { Puts sink.old (clause_places e) sink.new }
{
    sink.span(e.picture);
    sink.span(e.over);
    sink.span(e.depending);
}

// Its digits, 0 each where it has none.
fn put_digits(sink: &mut Sink, digits: Option<Digits>)
    requires { Countable sink.old.at (digits_bytes digits) }
    ensures { Puts sink.old (digits_bytes digits) sink.new }
{
    match digits {
        None => sink.bytes([0, 0, 0]),
        Some(d) => sink.bytes([d.precision, d.scale, d.signed.code()]),
    }
}

// The slack at its end, its digits, the word that names its usage, and what SIGN says.
fn put_held(sink: &mut Sink, e: Entry)
    requires { Countable sink.old.at (held_bytes e) }
    ensures { Puts sink.old (held_bytes e) sink.new }
{
    sink.number(e.slack_at_end);
    put_digits(sink, e.digits);
    sink.span(e.usage);
    sink.byte(e.sign.code());
}

// An entry's details.
#[tactic(auto, using(crate::proofs::FlatLaws::detail_sizes))]
fn put_detail(sink: &mut Sink, e: Entry, depth: u8, below: usize, first: usize)
    requires { Countable sink.old.at (detail_bytes (detail e depth below first)) }
    ensures { Puts sink.old (detail_bytes (detail e depth below first)) sink.new }
{
    put_standing(sink, e, depth, below);
    sink.long(first);
    sink.number(e.slack);
    put_clauses(sink, e);
    put_held(sink, e);
}

// ---------------------------------------------------------------- the table

// The first byte of an entry, by the starts of the open lists.
fn first_of(x: RowItem, starts: &[usize; DEPTHS]) -> usize
    requires { (x.item.now.depth < 130) × (get_or starts.now x.item.now.depth 0 ≤ farthest) }
    ensures { FirstByte starts.now (shown_of x.entry.rows.all.now x.entry.item.now) result }
{
    starts[x.item.depth as usize] + x.start()
}

// Puts the details of an entry, whose first byte is given.
#[tactic(auto, using(crate::proofs::FlatLaws::detail_sizes))]
fn put_own(x: RowItem, first: usize, sink: &mut Sink)
    requires { (x.item.now.depth < 130) × (sink.old.at ≤ 4294967295) }
    ensures { Puts sink.old (detail_bytes (detail_in first (shown_of x.entry.rows.all.now x.entry.item.now)))
        sink.new }
{
    put_detail(
        sink,
        x.entry(),
        x.item.depth as u8,
        x.item.below as usize,
        first,
    );
}

// Puts the details of the entries.
fn put_details(table: Table, sink: &mut Sink)
    requires { Shallow table.rows.all.now table.items.now × (sink.old.at ≤ 17) }
    ensures { Puts sink.old
        (flat_details (replicate 131 0) (shown_all table.entry.rows.all.now table.entry.items.now)) sink.new }
{
    let mut starts = [0usize; DEPTHS];
    for item in table.items {
        let x = table.row_item(item);
        let first = first_of(x, &starts);
        put_own(x, first, sink);
        starts[item.depth as usize + 1] = first;
    }
}

// ---------------------------------------------------------------- the head

// The root that was dropped, 0 each where none was.
fn put_root(sink: &mut Sink, root: Option<Statement>)
    requires { Countable sink.old.at (root_bytes root) }
    ensures { Puts sink.old (root_bytes root) sink.new }
{
    match root {
        None => sink.bytes([0; 13]),
        Some(s) => {
            sink.number(usize::from(s.at));
            sink.byte(s.level);
            sink.span(s.name);
        }
    }
}

// The head: the root that was dropped, and how many entries there are.
#[tactic(auto, using(crate::proofs::FlatLaws::root_sizes))]
fn put_head(sink: &mut Sink, root: Option<Statement>, many: usize)
    requires { sink.old.at ≡ 0 }
    ensures put { Puts sink.old (head_bytes root many) sink.new }
    ensures at { sink.new.at ≡ 17 }
{
    put_root(sink, root);
    sink.number(many);
}

// The details of a record that was laid out, and of the root that was dropped, if any.
#[derive(Clone, Copy)]
struct Details<'a> {
    laid: LaidRecord<'a>,
    root: Option<Statement>,
    ghost tabled: { Detailable laid },
}

impl<'a> Written for Details<'a> {
    ghost bytes = { λ d. details_of d.root d.laid.text.now d.laid.table.rows.all.now d.laid.from d.laid.table.rows.count };

    fn put(self, sink: &mut Sink) {
        let table = self.laid.table;
        put_head(sink, self.root, table.items.len());
        put_details(table, sink);
    }

    fn measure(self) -> usize {
        17 + 63 * self.laid.table.items.len()
    }
}

/// Writes the details of a record that was laid out, if the output has room for them, and answers their length; 31,
/// with their length, if not.
pub fn write_details(laid: LaidRecord, out: &mut [u8]) -> Result<usize, Refusal>
    requires { Detailable laid × Dropped laid.table.rows.all.now laid.from laid.table.rows.count }
    ensures { left result out.new []
        ≡ after_writing
        (fitting (length out.old)
        (details_of (root (rows_forest laid.entry.table.rows.all.now 0 laid.entry.table.rows.count))
        laid.entry.text.now laid.entry.table.rows.all.now laid.entry.from laid.entry.table.rows.count))
        out.old [] }
{
    let root = record::root_of(laid.table.rows, laid.from);
    output::write(Details { laid, root }, out)
}
