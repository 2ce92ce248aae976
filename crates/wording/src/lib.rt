//! The words of a copybook text, statement by statement, as bytes: a walk over its tokens that measures and then
//! writes, with no table. Leans on `text` and `output`.
#![tactic(auto)]

ghost use Rattle.std.specs.Prelude.{◌≡◌, ◌≤◌, [], ◌∷◌, length};
ghost use Rattle.definition.specs.Calls.{after_writing, left, on_cards, words_in, words_call};
ghost use Rattle.definition.specs.Wording.{spans_bytes, statement_bytes, wording};
ghost use Rattle.definition.specs.declared.TheConstants.{MOST_BYTES};
ghost use Rattle.output.specs.Puts.{Countable, Puts};
ghost use Rattle.text.specs.Tokens.{tokens_at, words_from, Ends};
ghost use Rattle.wording.specs.Extents.{end_from};

use definition::{Form, MOST_BYTES, Refusal, Span};
use output::{Sink, Written};
use text::tokens::{Cursor, Next};
use text::{cards, words};

// ---------------------------------------------------------------- a statement

// How many words a statement has, and where it ends: at its period, or with the text.
#[derive(Clone, Copy)]
struct Extent {
    words: usize,
    end: usize,
}

// Those of the statement that goes on at a cursor.
fn extent_from(text: &[u8], cursor: Cursor) -> Extent
    requires { (cursor.at ≤ length text.now) × (length text.now ≤ MOST_BYTES) }
    ensures words { result.words ≡ length (words_from text.now cursor) }
    ensures end { result.end ≡ end_from text.now cursor }
{
    let mut cursor = cursor;
    let mut words = 0;
    loop {
        match words::word_at(text, &mut cursor) {
            Next::Word(_) => words += 1,
            // A period is one byte, and the reader stands directly behind it.
            Next::Stop => {
                return Extent {
                    words,
                    end: cursor.at - 1,
                };
            }
            Next::End => {
                return Extent {
                    words,
                    end: text.len(),
                };
            }
        }
    }
}

// Puts the words of the statement that goes on at a cursor, which then stands behind the statement.
fn put_words(text: &[u8], cursor: &mut Cursor, sink: &mut Sink)
    requires { (cursor.old.at ≤ length text.now) × (length text.now ≤ MOST_BYTES)
        × Countable sink.old.at (spans_bytes (words_from text.now cursor.old)) }
    ensures put { Puts sink.old (spans_bytes (words_from text.now cursor.old)) sink.new }
    ensures ends { Ends text.now cursor.old cursor.new }
{
    while let Next::Word(w) = words::word_at(text, cursor) {
        sink.span(w);
    }
}

// Puts the statement that begins with this word and goes on at a cursor, which then stands behind the statement.
fn put_statement(text: &[u8], first: Span, cursor: &mut Cursor, sink: &mut Sink)
    requires { (cursor.old.at ≤ length text.now) × (length text.now ≤ MOST_BYTES)
        × Countable sink.old.at
        (statement_bytes (first ∷ words_from text.now cursor.old) (end_from text.now cursor.old)) }
    ensures put { Puts sink.old
        (statement_bytes (first ∷ words_from text.now cursor.old) (end_from text.now cursor.old)) sink.new }
    ensures ends { Ends text.now cursor.old cursor.new }
{
    let extent = extent_from(text, *cursor);
    sink.number(extent.words + 1);
    sink.number(extent.end);
    sink.span(first);
    put_words(text, cursor, sink);
}

// ---------------------------------------------------------------- a text

// The words of a text.
#[derive(Clone, Copy)]
struct Wording<'a> {
    text: &'a [u8],
    ghost short: { length text.now ≤ MOST_BYTES },
}

impl<'a> Written for Wording<'a> {
    ghost bytes = { λ w. wording w.text.now };

    fn put(self, sink: &mut Sink) {
        let mut cursor = Cursor::at_start();
        loop {
            match words::word_at(self.text, &mut cursor) {
                Next::Word(first) => put_statement(self.text, first, &mut cursor, sink),
                Next::Stop => {}
                Next::End => return,
            }
        }
    }

    // 8 bytes for each byte of the text, and 8 more, have room for its words.
    fn has_ample(self, places: usize) -> bool {
        8 * (self.text.len() + 1) <= places
    }
}

// Writes the words of free text, where so much work memory is lent.
#[tactic(auto, unfolding(definition::specs::Calls::words_in, definition::specs::Basic::and_then))]
fn write_text(text: &[u8], work: usize, out: &mut [u8]) -> Result<usize, Refusal>
    ensures { left result out.new []
        ≡ after_writing (words_in text.now work (length out.old)) out.old [] }
{
    text::entry_checks(text, work)?;
    words::open_check(text)?;
    output::write(Wording { text }, out)
}

// Writes those of cards: of what the reader sees of them. It is not inlined, so that free text needs no room for that.
#[inline(never)]
#[tactic(auto, unfolding(definition::specs::Calls::on_cards, definition::specs::Basic::and_then))]
fn write_cards(cards: &[u8], work: usize, out: &mut [u8]) -> Result<usize, Refusal>
    ensures { left result out.new []
        ≡ after_writing (on_cards (λ t. words_in t work (length out.old)) cards.now work) out.old [] }
{
    let mut room = [b' '; MOST_BYTES];
    let seen = cards::read_cards(cards, work, &mut room)?;
    write_text(seen, work, out)
}

/// Writes the words of a copybook, if the output has room for them, and answers how many bytes they are: 1, 2 and 3, on
/// cards 51, then 50; then 31, with the length of the words, if it has not. Work memory is zero after it.
pub fn write_words(
    form: Form,
    text: &[u8],
    work: &mut [u32],
    out: &mut [u8],
) -> Result<usize, Refusal>
    ensures { left result out.new work.new
        ≡ words_call form text.now out.old work.old }
{
    let answer = match form {
        Form::FreeText => write_text(text, work.len(), out),
        Form::Cards => write_cards(text, work.len(), out),
    };
    rows::clear(work);
    answer
}
