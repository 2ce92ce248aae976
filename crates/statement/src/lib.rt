//! One statement of a copybook: its level, its name and its clauses, as `parse_stmt` of the Rust reads them; in modules
//! what each word does to the clauses, and the text read into rows. Leans on `text` and `rows`.
#![tactic(auto)]

ghost use Rattle.std.specs.Prelude.{◌≡◌, ◌∷◌, ◌+◌, ◌≤◌, ◌<◌, length};
ghost use Rattle.definition.specs.declared.TheConstants.{MOST_BYTES};
ghost use Rattle.definition.specs.Statement.{finish as finish_of, statement_of};
ghost use Rattle.definition.specs.declared.Token.TheVariants.{Word};
ghost use Rattle.text.specs.Tokens.{tokens_at, Ends};
ghost use Rattle.statement.specs.Reading.{ClausesAre, NamedAre, FirstStatement};

use definition::{Clauses, Missing, ParseState, Refusal, Span, Statement};
use text::tokens::{Cursor, Next};
use text::{tokens, words};

pub mod clauses;
pub mod tree;

// A reader is made for one word, by `word_at`: one that is lent could change its text too, and each contract and each
// loop would have to say that it stays. Where a statement begins, and where it is skipped, `next_token` is compiled in
// place: by `word_at`, values of level 88 took up to 1.1 times as long, and empty statements 1.3 times.

/// The clauses of a statement that begins at `at` and ends where `e` is expected; or what it lacks, a count (11), a
/// bound (12) or a name (13).
fn finish(at: u16, e: ParseState, c: Clauses) -> Result<Clauses, Refusal>
    ensures { result ≡ finish_of at e c }
{
    match e {
        ParseState::ACount => Err(Missing::Count.at(at)),
        ParseState::Bound => Err(Missing::Bound.at(at)),
        ParseState::OnName | ParseState::AName => Err(Missing::Name.at(at)),
        _ => Ok(c),
    }
}

/// The clauses of the statement that begins at `at`, from where the reader stands on; it stands after the statement
/// then, if it is not refused.
pub fn read_clauses(text: &[u8], at: u16, cursor: &mut Cursor) -> Result<Clauses, Refusal>
    requires { (cursor.old.at ≤ length text.now) × (length text.now ≤ MOST_BYTES) }
    ensures { ClausesAre text.now at cursor.old result cursor.new }
{
    let mut e = ParseState::Clause;
    let mut c = clauses::NO_CLAUSES;
    while let Next::Word(w) = words::word_at(text, cursor) {
        // With `map_err` and `?` the check would not see which refusal the closure makes.
        match clauses::step(e, w, w.part_of(text), &mut c) {
            Ok(next) => e = next,
            Err(missing) => return Err(missing.at(at)),
        }
    }
    finish(at, e, c)
}

/// Moves a reader behind the statement that goes on there.
#[tactic(auto, using(text::proofs::EndLaws::end_steps))]
fn skip_statement(text: &[u8], cursor: &mut Cursor)
    requires { (cursor.old.at ≤ length text.now) × (length text.now ≤ MOST_BYTES) }
    ensures { Ends text.now cursor.old cursor.new }
{
    while let Next::Word(_) = tokens::next_token(text, cursor) {}
}

/// The statement of a level at a position, with a name and clauses, by itself.
fn statement_of(level: u8, at: u16, name: Span, c: Clauses) -> Statement
    ensures { result ≡ statement_of level at name c }
{
    Statement {
        level,
        at,
        name,
        clauses: c,
        usage: c.usage,
    }
}

/// The statement of the words after the level, from where the reader stands on: a name, or none, and clauses. It
/// stands after the statement then, if it is not refused.
fn read_named(text: &[u8], at: u16, level: u8, cursor: &mut Cursor) -> Result<Statement, Refusal>
    requires { (at < length text.now) × (cursor.old.at ≤ length text.now) × (length text.now ≤ MOST_BYTES) }
    ensures { NamedAre text.now at level cursor.old result cursor.new }
{
    match words::word_at(text, cursor) {
        Next::Word(name) => {
            let c = read_clauses(text, at, cursor)?;
            Ok(statement_of(level, at, name, c))
        }
        Next::Stop | Next::End => Ok(statement_of(level, at, Span::ABSENT, clauses::NO_CLAUSES)),
    }
}

/// What a reader finds: a statement that is kept, one that is skipped, or the end of the tokens.
#[derive(Clone, Copy)]
pub enum StatementRead {
    /// A statement that is kept.
    Kept(Statement),
    /// One that is skipped.
    Skipped,
    /// The end of the tokens.
    End,
}

/// The statement whose first word is given, and which goes on where the reader stands: its level, or 10, then the rest.
fn read_levelled(text: &[u8], first: Span, cursor: &mut Cursor) -> Result<StatementRead, Refusal>
    requires { (first.start < length text.now) × (first.start + first.len ≤ length text.now)
        × (cursor.old.at ≤ length text.now) × (length text.now ≤ MOST_BYTES) }
    ensures { FirstStatement (Word first ∷ tokens_at text.now cursor.old) text.now cursor.old.at result cursor.new }
{
    match text::level_of(first.part_of(text)) {
        Some(88) => {
            skip_statement(text, cursor);
            Ok(StatementRead::Skipped)
        }
        Some(level) => {
            let s = read_named(text, first.start, level, cursor)?;
            Ok(StatementRead::Kept(s))
        }
        None => Err(Refusal::BadLevel {
            position: usize::from(first.start),
        }),
    }
}

/// The first statement from where a reader stands, which then stands behind it, if it is not refused.
pub fn read_statement(text: &[u8], cursor: &mut Cursor) -> Result<StatementRead, Refusal>
    requires { (cursor.old.at ≤ length text.now) × (length text.now ≤ MOST_BYTES) }
    ensures { FirstStatement (tokens_at text.now cursor.old) text.now (cursor.old.at + 1) result cursor.new }
{
    match tokens::next_token(text, cursor) {
        Next::Word(first) => read_levelled(text, first, cursor),
        Next::Stop => Ok(StatementRead::Skipped),
        Next::End => Ok(StatementRead::End),
    }
}
