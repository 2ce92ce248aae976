//! The words of a statement after its name, one at a time: what each does to the clauses, and what is expected next.

ghost use Rattle.std.specs.Prelude.{◌≡◌};
ghost use Rattle.definition.specs.Basic.{uppers};
ghost use Rattle.definition.specs.Statement.{go, begin as begin_of, on_clause, on_depending, on_times};
ghost use Rattle.definition.specs.Statement.{on_sign, clause_step, separately as separately_of, step as step_of};
ghost use Rattle.statement.specs.Steps.{led, kept_on};

use definition::{Clauses, Keyword, Missing, NamedUsage, ParseState, SignWords, Span};
use text::keywords;

/// What a statement says before its first clause.
pub const NO_CLAUSES: Clauses = Clauses {
    picture: Span::ABSENT,
    usage: None,
    sign: None,
    sync: false,
    occurs: None,
    depending: Span::ABSENT,
    redefines: Span::ABSENT,
};

/// Where the word at `w` begins a clause: what is expected next.
fn begin(w: Span, k: Option<Keyword>, c: &mut Clauses) -> ParseState
    ensures { go result c.new ≡ begin_of w k c.old }
{
    match k {
        Some(Keyword::Picture) => {
            c.picture = Span::ABSENT;
            ParseState::IsPicture
        }
        Some(Keyword::Redefines) => {
            c.redefines = Span::ABSENT;
            ParseState::Target
        }
        Some(Keyword::Occurs) => ParseState::ACount,
        Some(Keyword::Usage) => ParseState::UsageIs,
        Some(Keyword::Names(usage)) => {
            c.usage = Some(NamedUsage { usage, word: w });
            ParseState::Clause
        }
        Some(Keyword::Sign) => {
            c.sign = Some(SignWords {
                leading: false,
                separate: false,
            });
            ParseState::SignIs
        }
        Some(Keyword::Sync) => {
            c.sync = true;
            ParseState::Side
        }
        Some(Keyword::Value) => ParseState::Nothing,
        None => ParseState::Clause,
    }
}

/// A word, that stands at `w`, where a clause may begin.
fn on_clause(w: Span, word: &[u8], c: &mut Clauses) -> ParseState
    ensures { go result c.new ≡ on_clause w (uppers word.now) c.old }
{
    begin(w, keywords::keyword_of(word), c)
}

/// A word where DEPENDING or a clause may stand.
fn on_depending(w: Span, word: &[u8], c: &mut Clauses) -> ParseState
    ensures { go result c.new ≡ on_depending w (uppers word.now) c.old }
{
    if text::same_key(word, b"DEPENDING") {
        return ParseState::OnName;
    }
    on_clause(w, word, c)
}

/// A word where TIMES, DEPENDING or a clause may stand.
fn on_times(w: Span, word: &[u8], c: &mut Clauses) -> ParseState
    ensures { go result c.new ≡ on_times w (uppers word.now) c.old }
{
    if text::same_key(word, b"TIMES") {
        return ParseState::DependingOn;
    }
    on_depending(w, word, c)
}

/// The word of SIGN: LEADING or not.
fn on_sign(word: &[u8], c: &mut Clauses) -> ParseState
    ensures { go result c.new ≡ on_sign (uppers word.now) c.old }
{
    c.sign = Some(SignWords {
        leading: text::same_key(word, b"LEADING"),
        separate: false,
    });
    ParseState::Clause
}

/// What is expected after a word that stands at `w`, and the clauses with what it says, SEPARATE aside; or what the
/// statement lacks.
#[tactic(auto, using(crate::proofs::StepLaws::count_steps), unfolding(definition::specs::Statement::clause_step))]
fn clause_step(e: ParseState, w: Span, word: &[u8], c: &mut Clauses) -> Result<ParseState, Missing>
    ensures { (result ≡ led (clause_step e w (uppers word.now) c.old))
        × (c.new ≡ kept_on (clause_step e w (uppers word.now) c.old) c.old) }
{
    let next = match e {
        ParseState::IsPicture if text::same_key(word, b"IS") => ParseState::APicture,
        ParseState::IsPicture | ParseState::APicture => {
            c.picture = w;
            ParseState::Clause
        }
        ParseState::Target => {
            c.redefines = w;
            ParseState::Clause
        }
        ParseState::ACount => {
            c.occurs = Some(text::count_of(word).ok_or(Missing::Count)?);
            ParseState::To
        }
        ParseState::To if text::same_key(word, b"TO") => ParseState::Bound,
        ParseState::To | ParseState::Times => on_times(w, word, c),
        ParseState::Bound => {
            c.occurs = Some(text::count_of(word).ok_or(Missing::Bound)?);
            ParseState::Times
        }
        ParseState::DependingOn => on_depending(w, word, c),
        ParseState::OnName if text::same_key(word, b"ON") => ParseState::AName,
        ParseState::OnName | ParseState::AName => {
            c.depending = w;
            ParseState::Clause
        }
        ParseState::SignIs if text::same_key(word, b"IS") => ParseState::SignWord,
        ParseState::SignIs | ParseState::SignWord => on_sign(word, c),
        ParseState::UsageIs if text::same_key(word, b"IS") => ParseState::Clause,
        ParseState::Side if text::same_key(word, b"LEFT") || text::same_key(word, b"RIGHT") => {
            ParseState::Clause
        }
        ParseState::Clause | ParseState::UsageIs | ParseState::Side => on_clause(w, word, c),
        ParseState::Nothing => ParseState::Nothing,
    };
    Ok(next)
}

/// What SEPARATE makes of the words of SIGN.
fn separately(s: Option<SignWords>) -> Option<SignWords>
    ensures { result ≡ separately_of s }
{
    s.map(|w| SignWords {
        separate: true,
        ..w
    })
}

/// One word of a statement after its name, that stands at `w`: what is expected next, with what the word says put into
/// the clauses; or what the statement lacks, and then the clauses stay as they were.
#[tactic(auto, unfolding(definition::specs::Statement::step))]
pub fn step(e: ParseState, w: Span, word: &[u8], c: &mut Clauses) -> Result<ParseState, Missing>
    ensures { (result ≡ led (step_of e w (uppers word.now) c.old))
        × (c.new ≡ kept_on (step_of e w (uppers word.now) c.old) c.old) }
{
    let next = clause_step(e, w, word, c)?;
    if text::same_key(word, b"SEPARATE") {
        c.sign = separately(c.sign);
    }
    Ok(next)
}
