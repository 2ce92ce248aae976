//! A text read into rows: the open levels that give each statement its parent, the usage that it takes
//! from there, and the reading.

ghost use Rattle.std.specs.Prelude.{◌≡◌, ◌≤◌, ◌<◌, length};
ghost use Rattle.definition.specs.Calls.{kept_statements};
ghost use Rattle.definition.specs.declared.TheConstants.{MOST_BYTES};
ghost use Rattle.rows.specs.Rows.{row_code};
ghost use Rattle.definition.specs.Usages.{inheriting as inheriting_of};
ghost use Rattle.text.specs.Tokens.{at_start};
ghost use Rattle.statement.specs.Levels.{outer_row, usage_around, NoneOpen, Nested, Closed, Opened};
ghost use Rattle.statement.specs.TreeReading.{Added, periods, rows_needed, StatementsAre, RowsOf};

use crate::StatementRead;
use definition::{MOST_BYTES, MOST_STATEMENTS, NamedUsage, Refusal, Statement};
use rows::{Row, Rows};
use text::tokens::Cursor;
use text::words;

// ---------------------------------------------------------------- open levels

/// The row that a row stands under, if there are both.
fn outer_row(rows: Rows, row: Option<u16>) -> Option<u16>
    requires { row_code row ≤ rows.count }
    ensures { result ≡ outer_row rows.entry.all.now row }
{
    rows.row(usize::from(row?)).parent
}

/// The usage that holds around a statement under that row; none is named around one under no row.
fn usage_around(rows: Rows, row: Option<u16>) -> Option<NamedUsage>
    requires { row_code row ≤ rows.count }
    ensures { result ≡ usage_around rows.entry.all.now row }
{
    rows.row(usize::from(row?)).statement.usage
}

/// The levels that are open, the innermost last, and how many; and the row of the innermost, if any. The rows of the
/// others follow by the parents.
#[derive(Clone, Copy)]
pub struct OpenLevels {
    /// The levels, the innermost last.
    pub levels: [u8; 256],
    /// How many are open.
    pub count: usize,
    /// The row of the innermost, if any.
    pub row: Option<u16>,
}

impl OpenLevels {
    /// No level is open.
    fn none() -> OpenLevels
        ensures { NoneOpen result }
    {
        OpenLevels {
            levels: [0; 256],
            count: 0,
            row: None,
        }
    }

    /// Closes the levels that are not smaller than a statement's.
    fn close(&mut self, rows: Rows, level: u8)
        requires { Nested rows.all.now rows.count self.old }
        ensures { Closed rows.entry.all.now rows.entry.count self.old level self.new }
    {
        for inner in (0..self.count).rev() {
            if self.levels[inner] < level {
                return;
            }
            self.row = outer_row(rows, self.row);
            self.count = inner;
        }
        self.row = None;
    }

    /// Opens a statement's level, in row k, after the others were closed.
    fn open(&mut self, level: u8, k: usize)
        requires { (self.old.count ≤ level) × (k < 65536) }
        ensures { Opened self.old level k self.new }
    {
        self.levels[self.count] = level;
        self.count += 1;
        self.row = Some(k as u16);
    }
}

// ---------------------------------------------------------------- rows

/// A statement with the usage that holds for it, where `outer` holds around it.
fn inheriting(outer: Option<NamedUsage>, s: Statement) -> Statement
    ensures { result ≡ inheriting_of outer s }
{
    Statement {
        usage: s.clauses.usage.or(outer),
        ..s
    }
}

/// A statement into row k, under the innermost open one of a smaller level, whose usage it takes where it names none;
/// its own level is open then.
fn add_row(text: &[u8], rows: &mut [Row], k: usize, o: &mut OpenLevels, s: Statement)
    requires { (k < length rows.old) × (k < MOST_STATEMENTS) × Nested rows.old k o.old }
    ensures { Added text.now rows.old k o.old s rows.new o.new }
{
    let before = Rows::new(rows, k);
    o.close(before, s.level);
    let around = usage_around(before, o.row);
    rows[k] = Row::new(text, inheriting(around, s), o.row);
    o.open(s.level, k);
}

/// How many periods so short a text has.
// A loop over numbers of 16 bits is compiled to vectors; `filter` and `count` took 7 instructions a byte.
fn periods(text: &[u8]) -> u16
    requires { length text.now ≤ MOST_BYTES }
    ensures { result ≡ periods text.now }
{
    let mut n = 0;
    for b in text {
        n += u16::from(*b == b'.');
    }
    n
}

/// How many rows a text needs at most: each of its statements but the last ends in a period, and 800 are kept.
#[tactic(auto, unfolding(crate::specs::TreeReading::rows_needed))]
fn rows_needed(text: &[u8]) -> usize
    ensures { (result ≡ rows_needed text.now) × (result ≤ MOST_STATEMENTS) }
{
    let read = &text[..text.len().min(MOST_BYTES)];
    usize::from(periods(read)).min(MOST_STATEMENTS - 1) + 1
}

// In a text of more bytes the periods aren't counted: it has rows for all statements that are kept.
const COUNTED: usize = 16384;

/// How many rows are enough for a text.
#[tactic(auto, unfolding(crate::specs::TreeReading::rows_needed))]
pub fn rows_enough(text: &[u8]) -> usize
    ensures { (rows_needed text.now ≤ result) × (result ≤ MOST_STATEMENTS) }
{
    if COUNTED < text.len() {
        return MOST_STATEMENTS;
    }
    rows_needed(text)
}

/// The statements of a text as rows, from row 0 on, whether a literal is left open or not: how many, and
/// the reader stands where the tokens end then; or the refusal of a statement.
fn read_statements(text: &[u8], rows: &mut [Row], from: &mut Cursor) -> Result<usize, Refusal>
    requires { (length text.now ≤ MOST_BYTES) × (rows_needed text.now ≤ length rows.old) × (from.old ≡ at_start) }
    ensures { StatementsAre text.now rows.old result rows.new from.new }
{
    let mut n = 0;
    let mut levels = OpenLevels::none();
    loop {
        match crate::read_statement(text, from)? {
            StatementRead::Kept(s) => {
                if MOST_STATEMENTS <= n {
                    return Err(Refusal::TooManyStatements {
                        position: usize::from(s.at),
                    });
                }
                add_row(text, rows, n, &mut levels, s);
                n += 1;
            }
            StatementRead::Skipped => continue,
            StatementRead::End => return Ok(n),
        }
    }
}

/// The kept statements of a text as rows, from row 0 on: how many there are. The rows behind them stay. 50 comes before
/// any other refusal of theirs: where the tokens were read to their end, where the reader stands says whether a literal
/// is open, and else the text is looked through from its start.
pub fn read_rows(text: &[u8], rows: &mut [Row]) -> Result<usize, Refusal>
    requires { (length text.now ≤ MOST_BYTES) × (rows_needed text.now ≤ length rows.old) }
    ensures { RowsOf text.now rows.old (kept_statements text.now) result rows.new }
{
    let mut cursor = Cursor::at_start();
    match read_statements(text, rows, &mut cursor) {
        Ok(n) => {
            cursor.left_open()?;
            Ok(n)
        }
        Err(refusal) => {
            words::open_check(text)?;
            Err(refusal)
        }
    }
}
