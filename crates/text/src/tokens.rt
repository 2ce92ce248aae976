//! The tokens of a copybook text: its words, and the periods that end its statements. `next_token` finds the first from
//! where a reader stands, `tokenize` and `split_statements` of the Rust in one walk, and knows where a literal is; a
//! literal that its line does not close ends the tokens, so that where a reader stands then says whether the text is
//! refused (50).

ghost use Rattle.std.specs.Prelude.{◌≡◌, ◌≤◌, ◌<◌, length, get_or, drop, not};
ghost use Rattle.definition.specs.Basic.{white};
ghost use Rattle.definition.specs.declared.TheConstants.{MOST_BYTES};
ghost use Rattle.definition.specs.Words.{cut_here, ends, byte_kind, is_value, after_word, after_byte};
ghost use Rattle.definition.proofs.WordLaws.{kind_at, seen_at, stays_within};
ghost use Rattle.text.specs.Tokens.{at_start, behind as behind_of, tokens_at, NextLine, PlainEnd, WordEnd, WordFrom};
ghost use Rattle.text.specs.Tokens.{AfterValue, AheadIs, InsideIs, Looks, First, token_of, open_check};

use definition::{ByteKind, LiteralState, Refusal, Span};

// ---------------------------------------------------------------- where a reader stands

/// Where a reader stands: the place that it has reached, and what its statement has said, as far as its literals go.
/// Place 0 begins a line, and between words any other place stands behind a token.
#[derive(Clone, Copy)]
pub struct Cursor {
    /// The place that it has reached.
    pub at: usize,
    /// What its statement has said.
    pub literals: LiteralState,
}

impl Cursor {
    /// The beginning of a text.
    pub fn at_start() -> Cursor
        ensures { result ≡ at_start }
    {
        Cursor::behind(0)
    }

    /// A place behind a statement.
    fn behind(at: usize) -> Cursor
        ensures { result ≡ behind_of at }
    {
        Cursor {
            at,
            literals: LiteralState::Before(0),
        }
    }

    /// 50 at the opening mark, if a literal is open where a reader stands at the end of its tokens.
    pub fn left_open(self) -> Result<(), Refusal>
        ensures { result ≡ open_check self }
    {
        match self.literals {
            LiteralState::Literal { at, .. } => Err(Refusal::UnclosedLiteral { position: at }),
            _ => Ok(()),
        }
    }
}

// ---------------------------------------------------------------- bytes

/// Whether `*>` stands at a place.
#[tactic(auto, using(crate::proofs::TokenLaws::look_steps))]
fn cut_at(text: &[u8], i: usize) -> bool
    requires { i ≤ length text.now }
    ensures { result ≡ cut_here (drop i text.now) }
{
    matches!(text.get(i), Some(b'*')) && matches!(text.get(i + 1), Some(b'>'))
}

/// Whether a period before a place ends a statement.
#[tactic(auto, using(crate::proofs::TokenLaws::look_steps))]
fn ends_at(text: &[u8], i: usize) -> bool
    requires { i ≤ length text.now }
    ensures { result ≡ ends (drop i text.now) }
{
    match text.get(i) {
        Some(b) => crate::is_white(*b) || cut_at(text, i),
        None => true,
    }
}

/// What the byte at a place is, by itself and the bytes after it.
// Inlined, as `goes_on` and those in it: reading was 45 % slower without.
#[inline(always)]
#[tactic(auto, using(crate::proofs::TokenLaws::kind_steps), unfolding(definition::specs::Words::byte_kind))]
fn kind_at(text: &[u8], i: usize) -> ByteKind
    requires { i < length text.now }
    ensures { result ≡ kind_at text.now i }
{
    let b = text[i];
    if b == b'\n' {
        return ByteKind::Newline;
    }
    if crate::is_white(b) {
        return ByteKind::Blank;
    }
    if cut_at(text, i) {
        return ByteKind::Cut;
    }
    if b == b'*' {
        return ByteKind::Star;
    }
    if b == b'.' && ends_at(text, i + 1) {
        return ByteKind::Period;
    }
    ByteKind::Other
}

/// Whether a byte of this kind goes on with a word.
fn in_word(k: ByteKind) -> bool
    ensures { result ≡ stays_within k }
{
    matches!(k, ByteKind::Star | ByteKind::Other)
}

/// Whether a word goes on at a place, where no literal is open: letters and digits, past the period, go on with it
/// whatever stands after them.
#[inline(always)]
#[tactic(auto, using(crate::proofs::TokenLaws::plain_steps))]
fn goes_on_outside(text: &[u8], i: usize) -> bool
    requires { i < length text.now }
    ensures { result ≡ stays_within (kind_at text.now i) }
{
    text[i] > b'.' || in_word(kind_at(text, i))
}

/// The beginning of the line after the one at a place, or the text's end.
fn next_line(text: &[u8], at: usize) -> usize
    requires { at ≤ length text.now }
    ensures { NextLine text.now at result }
{
    match (at..text.len()).find(|i| text[*i] == b'\n') {
        Some(i) => i + 1,
        None => text.len(),
    }
}

// ---------------------------------------------------------------- words

/// Whether a word is VALUE or VALUES.
fn is_value(word: &[u8]) -> bool
    ensures { result ≡ is_value word.now }
{
    crate::same_key(word, b"VALUE") || crate::same_key(word, b"VALUES")
}

/// What is said after a word: it may be VALUE if it is third or later.
fn after_word(literals: LiteralState, word: &[u8]) -> LiteralState
    ensures { result ≡ after_word literals word.now }
{
    match literals {
        LiteralState::Before(n) => {
            if n < 2 {
                LiteralState::Before(n + 1)
            } else if is_value(word) {
                LiteralState::Value
            } else {
                literals
            }
        }
        _ => literals,
    }
}

/// The end of the word that goes on at a place, before VALUE: a mark is a byte like any other.
// Not with the loop of `marked_end`, which looks for marks too: so the tokens of a flat copybook took 24 % more
// instructions.
fn word_end(text: &[u8], at: usize) -> usize
    requires { at ≤ length text.now }
    ensures { PlainEnd text.now at result }
{
    for i in at..text.len() {
        if !goes_on_outside(text, i) {
            return i;
        }
    }
    text.len()
}

// ---------------------------------------------------------------- literals

/// What is said after a byte of a word, at place p: after VALUE a mark opens a literal, and the same mark closes it.
fn after_byte(literals: LiteralState, p: usize, b: u8) -> LiteralState
    ensures { result ≡ after_byte literals p b }
{
    match literals {
        LiteralState::Before(_) => literals,
        LiteralState::Value => {
            if b == b'\'' || b == b'"' {
                LiteralState::Literal { mark: b, at: p }
            } else {
                literals
            }
        }
        LiteralState::Literal { mark, .. } => {
            if b == mark {
                LiteralState::Value
            } else {
                literals
            }
        }
    }
}

/// Whether a word goes on at a place inside a literal: neither a period nor `*>` counts, so only white space ends it.
#[inline(always)]
#[tactic(auto, using(crate::proofs::TokenLaws::kind_steps))]
fn goes_on_inside(text: &[u8], i: usize) -> bool
    requires { i < length text.now }
    ensures { result ≡ not (white (get_or text.now i 0)) }
{
    !crate::is_white(text[i])
}

/// Whether a word goes on at a place.
#[inline(always)]
fn goes_on(text: &[u8], i: usize, literals: LiteralState) -> bool
    requires { i < length text.now }
    ensures { result ≡ stays_within (seen_at text.now literals i) }
{
    match literals {
        LiteralState::Literal { .. } => goes_on_inside(text, i),
        _ => goes_on_outside(text, i),
    }
}

/// Where a reader in a word stands when the word ends, after VALUE.
fn marked_end(text: &[u8], at: usize, literals: LiteralState) -> Cursor
    requires { (at ≤ length text.now) × AfterValue literals }
    ensures { WordEnd text.now at literals result }
{
    let mut literals = literals;
    for i in at..text.len() {
        if !goes_on(text, i, literals) {
            return Cursor { at: i, literals };
        }
        literals = after_byte(literals, i, text[i]);
    }
    Cursor {
        at: text.len(),
        literals,
    }
}

/// Where a reader stands behind the word that begins at a place: before VALUE its marks need not be looked for.
fn behind_word(text: &[u8], i: usize, literals: LiteralState) -> Cursor
    requires { i < length text.now }
    ensures { WordFrom text.now i literals result }
{
    match literals {
        LiteralState::Before(_) => {
            let at = word_end(text, i + 1);
            Cursor {
                at,
                literals: after_word(literals, &text[i..at]),
            }
        }
        _ => marked_end(text, i + 1, after_byte(literals, i, text[i])),
    }
}

// ---------------------------------------------------------------- tokens

/// What stands after blanks, comments and line ends: a word that begins at a place, the end of a statement and the
/// place behind it, or the end of all tokens.
#[derive(Clone, Copy)]
pub enum Ahead {
    /// A word, which begins there.
    Word(usize),
    /// The end of a statement, before that place.
    Stop(usize),
    /// The end of all tokens, there.
    End(usize),
}

/// What stands at a place or after it, where no literal is open; `fresh` says that the line has only blanks before it.
fn look_ahead(text: &[u8], at: usize, fresh: bool) -> Ahead
    requires { at ≤ length text.now }
    ensures { AheadIs text.now at fresh result }
{
    let mut i = at;
    let mut f = fresh;
    while i < text.len() {
        // Most bytes between words are spaces.
        if text[i] == b' ' {
            i += 1;
            continue;
        }
        match kind_at(text, i) {
            ByteKind::Newline => {
                f = true;
                i += 1;
            }
            ByteKind::Blank => {
                i += 1;
            }
            ByteKind::Cut => {
                i = next_line(text, i + 1);
                f = true;
            }
            ByteKind::Star if f => {
                i = next_line(text, i + 1);
            }
            ByteKind::Period => {
                return Ahead::Stop(i + 1);
            }
            ByteKind::Star | ByteKind::Other => {
                return Ahead::Word(i);
            }
        }
    }
    Ahead::End(i)
}

/// What stands at a place or after it, inside a literal.
fn look_inside(text: &[u8], at: usize) -> Ahead
    requires { at ≤ length text.now }
    ensures { InsideIs text.now at result }
{
    for i in at..text.len() {
        let b = text[i];
        if b == b'\n' {
            return Ahead::End(i);
        }
        if !crate::is_white(b) {
            return Ahead::Word(i);
        }
    }
    Ahead::End(text.len())
}

/// What a reader finds: a word, the end of a statement, or no more tokens, since the text has ended or the line of a
/// literal has.
#[derive(Clone, Copy)]
pub enum Next {
    /// A word.
    Word(Span),
    /// The end of a statement.
    Stop,
    /// No more tokens.
    End,
}

/// What stands ahead of a reader.
fn look(text: &[u8], s: Cursor) -> Ahead
    requires { s.at ≤ length text.now }
    ensures { Looks text.now s result }
{
    match s.literals {
        LiteralState::Literal { .. } => look_inside(text, s.at),
        _ => look_ahead(text, s.at, s.at == 0),
    }
}

/// What stands ahead of a reader, which then stands behind it: of a word, at its end. A text may have any length here.
pub fn pass_token(text: &[u8], s: &mut Cursor) -> Ahead
    requires { s.old.at ≤ length text.now }
    ensures { First (tokens_at text.now s.old) text.now s.old.at (token_of result s.new) s.new }
{
    let ahead = look(text, *s);
    match ahead {
        Ahead::Word(i) => *s = behind_word(text, i, s.literals),
        Ahead::Stop(at) => *s = Cursor::behind(at),
        Ahead::End(at) => s.at = at,
    }
    ahead
}

/// The first token from where a reader stands, which then stands behind it; after the last one, where the text has
/// ended or the line of a literal has.
// Inlined, so that a word reader's cursor isn't copied for each word: values of level 88 took 1.4 times as long.
#[inline(always)]
pub fn next_token(text: &[u8], s: &mut Cursor) -> Next
    requires { (s.old.at ≤ length text.now) × (length text.now ≤ MOST_BYTES) }
    ensures { First (tokens_at text.now s.old) text.now s.old.at result s.new }
{
    match pass_token(text, s) {
        Ahead::Word(i) => Next::Word(Span::between(i, s.at)),
        Ahead::Stop(_) => Next::Stop,
        Ahead::End(_) => Next::End,
    }
}
