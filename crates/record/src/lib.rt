//! A record: a copybook read into rows, laid out and checked, with the table of its entries; in a module what is asked
//! of it, as a question, of free text and of cards. Leans on `statement` and `fold`.
#![tactic(auto)]

ghost use Rattle.std.specs.Prelude.{MatchResult, ◌≡◌, ◌≤◌, length, take};
ghost use Rattle.definition.specs.declared.TheConstants.{MOST_STATEMENTS};
ghost use Rattle.definition.specs.Basic.{Ok, Err};
ghost use Rattle.definition.specs.Calls.{record_tree};
ghost use Rattle.statement.specs.TreeReading.{rows_needed};
ghost use Rattle.definition.specs.Tree.{fields, root};
ghost use Rattle.layout.specs.Places.{rows_forest};
ghost use Rattle.layout.specs.Children.{BelowCounted};
ghost use Rattle.layout.specs.Outcomes.{Room};
ghost use Rattle.fold.specs.Building.{Roomy};
ghost use Rattle.record.specs.Laying.{Under, FieldsFrom, Fielded, Laid, LaidBy, LaidIn, laid_of, Read};

use definition::{DEEPEST, Refusal, Statement};
use fold::entries;
use fold::table::{Table, TableEntry};
use layout::unions::MarkedRows;
use layout::{places, unions};
use rows::{Row, Rows};
use statement::tree;

pub mod asking;

// ---------------------------------------------------------------- the rows

/// Checks what a caller lends, a text and so much work memory, and reads the text into rows, with the counts of the rows
/// below them, and answers how many they are; or says why not: 1, 2, 3, then 50, then the statements' 10 to 14. Every
/// entry that speaks of a copybook's record starts so.
pub fn read_text(text: &[u8], work: usize, rows: &mut [Row]) -> Result<usize, Refusal>
    requires { rows_needed text.now ≤ length rows.old }
    ensures { MatchResult result (λ n. Read text.now work rows.new n) (λ r. record_tree text.now work ≡ Err r) }
{
    text::entry_checks(text, work)?;
    let n = tree::read_rows(text, rows)?;
    places::count_below(rows, n);
    Ok(n)
}

// ---------------------------------------------------------------- a record

/// The rows that hold a record, its length, and how many entries its table has, in all and at the top.
#[derive(Clone, Copy)]
pub struct Record {
    /// The first row of its fields.
    pub from: usize,
    /// The end of its rows.
    pub to: usize,
    /// Its length in bytes.
    pub length: usize,
    /// How many entries its table has.
    pub count: usize,
    /// How many of them stand at the top.
    pub top: usize,
}

/// A record that was laid out, with the text that describes it and the rows and entries that hold it.
#[derive(Clone, Copy)]
pub struct LaidRecord<'a> {
    /// The text.
    pub text: &'a [u8],
    /// Its entries, with the rows that they name.
    pub table: Table<'a>,
    /// The first row of its fields.
    pub from: usize,
    /// Its length in bytes.
    pub length: usize,
    /// How many entries stand at the top.
    pub top: usize,
}

impl Record {
    /// The same with its text, its rows, and a table that begins with its entries.
    pub fn with<'a>(
        self,
        text: &'a [u8],
        rows: &'a [Row],
        entries: &'a [TableEntry],
    ) -> LaidRecord<'a>
        requires { LaidBy text.now rows.now entries.now self }
        ensures laid { Laid result }
        ensures same { (result.text.now ≡ text.now) × (result.table.rows.all.now ≡ rows.now)
            × (result.table.items.now ≡ take self.count entries.now) × (result.from ≡ self.from)
            × (result.table.rows.count ≡ self.to) × (result.length ≡ self.length) × (result.top ≡ self.top) }
    {
        LaidRecord {
            text,
            table: Table {
                rows: Rows::new(rows, self.to),
                items: &entries[..self.count],
            },
            from: self.from,
            length: self.length,
            top: self.top,
        }
    }
}

/// The first row of the fields of a record: an only root with children is dropped.
pub fn first_field(rows: Rows) -> usize
    requires { BelowCounted rows.all.now 0 (rows_forest rows.all.now 0 rows.count) }
    ensures { FieldsFrom rows.entry.all.now rows.entry.count result }
{
    let n = rows.count;
    if n < 2 {
        return 0;
    }
    if places::next_of(rows, 0) < n { 0 } else { 1 }
}

/// The root that was dropped before the fields from a row on, if any.
pub fn root_of(rows: Rows, from: usize) -> Option<Statement>
    requires { (from ≤ rows.count)
        × (fields (rows_forest rows.all.now 0 rows.count) ≡ rows_forest rows.all.now from rows.count) }
    ensures { result ≡ root (rows_forest rows.entry.all.now 0 rows.entry.count) }
{
    if from == 0 {
        return None;
    }
    Some(rows.row(0).statement)
}

/// Lays out the fields in the rows from `from` up to `to`: their places, then 30, then 29 for an end in the folded
/// list.
pub fn lay_fields(
    text: &[u8],
    rows: &mut [Row],
    entries: &mut [TableEntry],
    from: usize,
    to: usize,
) -> Result<Record, Refusal>
    requires { (from ≤ to) × Room text.now rows.old from to × (to ≤ MOST_STATEMENTS) × Roomy entries.old to
        × Under rows.old from from (rows_forest rows.old from to)
        × (fields (rows_forest rows.old 0 to) ≡ rows_forest rows.old from to) }
    ensures { MatchResult result (LaidIn text.now (Ok (rows_forest rows.old 0 to)) rows.new entries.new)
        (λ r. laid_of text.now (Ok (rows_forest rows.old 0 to)) ≡ Err r) }
{
    let list = layout::lay_list(text, rows, from, to, DEEPEST, 0)?;
    list.checked?;
    unions::link_unions(rows, from, to);
    let laid = Rows::new(rows, to);
    let fields = MarkedRows::new(text, laid, from);
    let made = entries::make_entries(fields, entries);
    let table = Table {
        rows: laid,
        items: &entries[..made.next as usize],
    };
    let length = table.fitting_length()?;
    Ok(Record {
        from,
        to,
        length,
        count: made.next as usize,
        top: made.count as usize,
    })
}

/// Lays out the record that was read into n rows, or says why not: 20 to 30 and 52. The table has room for the entries
/// of so many rows.
pub fn lay_record(
    text: &[u8],
    rows: &mut [Row],
    n: usize,
    entries: &mut [TableEntry],
) -> Result<Record, Refusal>
    requires { Fielded text.now rows.old n × Roomy entries.old n }
    ensures { MatchResult result (LaidIn text.now (Ok (rows_forest rows.old 0 n)) rows.new entries.new)
        (λ r. laid_of text.now (Ok (rows_forest rows.old 0 n)) ≡ Err r) }
{
    let from = first_field(Rows::new(rows, n));
    lay_fields(text, rows, entries, from, n)
}
