//! What is asked of a copybook's record, as a question: the text is read into rows, the record laid out, the question
//! asked, and work memory cleared; of free text, or of what the reader sees of cards. `answers` and `family` have the
//! questions.

ghost use Rattle.std.specs.Prelude.{ℕ, Option, List, ◌≡◌, ◌*◌, ◌^◌, ◌<◌, ◌≤◌, [], length};
ghost use Rattle.definition.specs.Basic.{Answer};
ghost use Rattle.definition.specs.Calls.{left, asked, on_cards};
ghost use Rattle.definition.specs.declared.Statement.{Statement};
ghost use Rattle.definition.specs.Tree.{Forest, root};
ghost use Rattle.definition.specs.Fold.{Entries};
ghost use Rattle.statement.specs.TreeReading.{rows_needed};
ghost use Rattle.layout.specs.Places.{rows_forest};
ghost use Rattle.layout.specs.Shown.{list_in};
ghost use Rattle.record.specs.Laying.{Laid};
ghost use Rattle.record.specs.Asking.{Given, after_given, asked_call};

use crate::LaidRecord;
use definition::{Form, MOST_BYTES, MOST_STATEMENTS, Refusal};
use fold::table::{Mark, TableEntry};
use rows::Row;
use statement::tree;
use text::cards;

// ---------------------------------------------------------------- a question

/// What is asked of a record that was laid out.
pub trait Question: Copy {
    /// What is answered.
    type Reply;

    // The answer, where the output has so much room, from a text, the root that was dropped, the fields, and their entries
    // before any list is folded.
    ghost answers: { Self → ℕ → List ℕ → Option Statement → Forest → Entries → Answer (Given Self.Reply) };

    /// The answer.
    fn answer(self, laid: LaidRecord, out: &mut [u8]) -> Result<Self::Reply, Refusal>
        requires { Laid laid }
        ensures { left result out.new []
            ≡ after_given (answers self (length out.old) laid.entry.text.now
            (root (rows_forest laid.entry.table.rows.all.now 0 laid.entry.table.rows.count))
            (rows_forest laid.entry.table.rows.all.now laid.entry.from laid.entry.table.rows.count)
            (list_in laid.entry.table.rows.all.now laid.entry.from laid.entry.table.rows.count)) out.old [] };
}

// ---------------------------------------------------------------- asking it

// An item of a table that was not filled.
const EMPTY: TableEntry = TableEntry {
    mark: Mark::Own,
    row: 0,
    members: 0,
    below: 0,
    depth: 0,
};

// How many rows and how many entries the tables of a short copybook have, of a middling one, of a long one, of a longer
// one, and of the longest: small ones are sooner made. A fold makes at most half as many entries more.
const SHORT_ROWS: usize = 32;

const SHORT_ENTRIES: usize = 48;

const MIDDLING_ROWS: usize = 128;

const MIDDLING_ENTRIES: usize = 192;

const LONG_ROWS: usize = 320;

const LONG_ENTRIES: usize = 480;

const LONGER_ROWS: usize = 512;

const LONGER_ENTRIES: usize = 768;

const MOST_ENTRIES: usize = 1200;

// The answer about free text, with these tables of rows and entries, where so much work memory is lent. It is not
// inlined, so that its code is there once for all sizes.
#[inline(never)]
#[tactic(auto, unfolding(definition::specs::Calls::asked, definition::specs::Basic::and_then))]
fn ask_with<Q: Question>(
    question: Q,
    text: &[u8],
    work: usize,
    rows: &mut [Row],
    entries: &mut [TableEntry],
    out: &mut [u8],
) -> Result<Q::Reply, Refusal>
    requires { (rows_needed text.now ≤ length rows.old) × (3 * length rows.old ≤ 2 * length entries.old) }
    ensures { left result out.new []
        ≡ after_given (asked (Q.answers question (length out.old)) text.now work) out.old [] }
{
    let n = crate::read_text(text, work, rows)?;
    let laid = crate::lay_record(text, rows, n, entries)?;
    question.answer(laid.with(text, rows, entries), out)
}

// The same with a table of R rows and one of N entries. It is not inlined, so that a call has the tables of one size on
// its stack.
#[inline(never)]
fn ask_in<const R: usize, const N: usize, Q: Question>(
    question: Q,
    text: &[u8],
    work: usize,
    out: &mut [u8],
) -> Result<Q::Reply, Refusal>
    requires { (rows_needed text.now ≤ R) × (3 * R ≤ 2 * N) × (R < 2 ^ 32) × (N < 2 ^ 32) }
    ensures { left result out.new []
        ≡ after_given (asked (Q.answers question (length out.old)) text.now work) out.old [] }
{
    let mut rows = [Row::BLANK; R];
    let mut entries = [EMPTY; N];
    ask_with(question, text, work, &mut rows, &mut entries, out)
}

/// The answer about free text, where so much work memory is lent.
pub fn ask<Q: Question>(
    question: Q,
    text: &[u8],
    work: usize,
    out: &mut [u8],
) -> Result<Q::Reply, Refusal>
    ensures { left result out.new []
        ≡ after_given (asked (Q.answers question (length out.old)) text.now work) out.old [] }
{
    let rows = tree::rows_enough(text);
    if rows <= SHORT_ROWS {
        return ask_in::<SHORT_ROWS, SHORT_ENTRIES, _>(question, text, work, out);
    }
    if rows <= MIDDLING_ROWS {
        return ask_in::<MIDDLING_ROWS, MIDDLING_ENTRIES, _>(question, text, work, out);
    }
    if rows <= LONG_ROWS {
        return ask_in::<LONG_ROWS, LONG_ENTRIES, _>(question, text, work, out);
    }
    if rows <= LONGER_ROWS {
        return ask_in::<LONGER_ROWS, LONGER_ENTRIES, _>(question, text, work, out);
    }
    ask_in::<MOST_STATEMENTS, MOST_ENTRIES, _>(question, text, work, out)
}

// The answer about cards: that of what the reader sees of them. It is not inlined, so that free text needs no room for
// the view.
#[inline(never)]
#[tactic(auto, unfolding(definition::specs::Calls::on_cards, definition::specs::Basic::and_then))]
fn ask_cards<Q: Question>(
    question: Q,
    cards: &[u8],
    work: usize,
    out: &mut [u8],
) -> Result<Q::Reply, Refusal>
    ensures { left result out.new []
        ≡ after_given (on_cards (λ t. asked (Q.answers question (length out.old)) t work) cards.now work) out.old [] }
{
    let mut room = [b' '; MOST_BYTES];
    let seen = cards::read_cards(cards, work, &mut room)?;
    ask(question, seen, work, out)
}

/// The answer about a copybook; work memory is zero after it.
pub fn answer<Q: Question>(
    form: Form,
    question: Q,
    text: &[u8],
    work: &mut [u32],
    out: &mut [u8],
) -> Result<Q::Reply, Refusal>
    ensures { left result out.new work.new
        ≡ asked_call form (Q.answers question) text.now out.old work.old }
{
    let answer = match form {
        Form::FreeText => ask(question, text, work.len(), out),
        Form::Cards => ask_cards(question, text, work.len(), out),
    };
    rows::clear(work);
    answer
}
