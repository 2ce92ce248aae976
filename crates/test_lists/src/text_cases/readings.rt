//! Readings of copybook texts, in reader/texts.txt and limits.txt. A case: the text, and what tools/readings/reader.py
//! answers, which names the numbers; where the Rust has an answer, that was compared with it when the list was made.

ghost use Rattle.std.specs.Prelude.{◌≡◌, ◌≤◌, length, IfOk, IsOk, IsTrue};
ghost use Rattle.replay.specs.Bare.{bare_ahead};
ghost use Rattle.replay.specs.Words.{is_end};

use definition::{Clauses, ItemUsage, MOST_STATEMENTS, NamedUsage, Refusal, Span, Usage};
use replay::bare::BareCase;
use replay::case::Differs;
use replay::lent::{Lent, TEXT_ROOM};
use rows::kinds::Coded;
use rows::{Row, Rows};
use statement::tree;

// ---------------------------------------------------------------- one row

/// The number of what USAGE says; DISPLAY has the third one there.
fn usage_number(named: Option<NamedUsage>) -> u64 {
    let Some(named) = named else {
        return 0;
    };
    match named.usage {
        ItemUsage::Picture(Usage::Comp3) => 1,
        ItemUsage::Picture(Usage::Comp) => 2,
        ItemUsage::Picture(Usage::Display) => 3,
        ItemUsage::Comp1 => 4,
        ItemUsage::Comp2 => 5,
    }
}

/// Goes on where the next words are the start and the length of a place in the text.
fn span(case: &mut BareCase, w: Span) -> Result<(), Differs>
    ensures { case.new.list ≡ case.old.list }
{
    case.numbers(&[u64::from(w.start), u64::from(w.len)])
}

/// Goes on where the next words are the mark and the count of OCCURS.
fn occurs(case: &mut BareCase, times: Option<u64>) -> Result<(), Differs>
    ensures { case.new.list ≡ case.old.list }
{
    case.numbers(&[u64::from(times.is_some()), times.unwrap_or(0)])
}

/// Goes on where the next words are the clauses.
fn clauses(case: &mut BareCase, c: Clauses) -> Result<(), Differs>
    ensures { case.new.list ≡ case.old.list }
{
    span(case, c.picture)?;
    case.numbers(&[
        usage_number(c.usage),
        u64::from(c.sign.code()),
        u64::from(c.sync),
    ])?;
    occurs(case, c.occurs)?;
    span(case, c.depending)?;
    span(case, c.redefines)
}

/// The number of the statement that a row stands under, from 1, or 0 for none.
fn parent_number(row: &Row) -> u64 {
    match row.parent {
        None => 0,
        Some(k) => u64::from(k) + 1,
    }
}

/// Goes on where the next words are a row's statement and its parent.
fn row(case: &mut BareCase, row: &Row) -> Result<(), Differs>
    ensures { case.new.list ≡ case.old.list }
{
    let s = row.statement;
    case.numbers(&[u64::from(s.level), u64::from(s.at), parent_number(row)])?;
    span(case, s.name)?;
    clauses(case, s.clauses)?;
    case.bytes(&[s.usage.map_or(0, |named| named.usage.code())])
}

/// Goes on where the next words are the rows.
fn all_rows(case: &mut BareCase, rows: Rows) -> Result<(), Differs>
    ensures { case.new.list ≡ case.old.list }
{
    for k in 0..rows.count {
        row(case, rows.row(k))?;
    }
    Ok(())
}

// ---------------------------------------------------------------- one text

/// The rows of a text that passes the checks of an entry: how many there are.
fn read(text: &[u8], work: usize, rows: &mut [Row]) -> Result<usize, Refusal>
    requires { MOST_STATEMENTS ≤ length rows.old }
    ensures { IfOk result (λ n. n ≤ length rows.new) }
{
    text::entry_checks(text, work)?;
    tree::read_rows(text, rows)
}

/// Goes on where the next words are the answer to a text.
fn answer(case: &mut BareCase, text: &[u8], work: usize) -> Result<(), Differs>
    ensures { case.new.list ≡ case.old.list }
{
    let mut rows = [Row::BLANK; MOST_STATEMENTS];
    match read(text, work, &mut rows) {
        Ok(n) => {
            case.numbers(&[1, n as u64])?;
            all_rows(case, Rows::new(&rows, n))
        }
        Err(r) => case.refusal(r),
    }
}

/// Goes on where the next words ask and answer, with blanks before the text.
pub fn replay(case: &mut BareCase, lent: Lent) -> Result<(), Differs>
    ensures list { case.new.list ≡ case.old.list }
    ensures ended { IsOk result → IsTrue (is_end (bare_ahead case.new.list.now case.new.at)) }
{
    let mut room = [b' '; TEXT_ROOM];
    let text = case.input(&mut room, lent.before)?;
    answer(case, text, lent.work.len())?;
    case.end()
}
