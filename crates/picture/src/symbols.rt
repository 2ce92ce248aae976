//! The symbols of a picture: each with its repeat `(n)`, and their count, run by run: a symbol with its repeat is one
//! step, whatever n is.

ghost use Rattle.std.specs.Prelude.{◌≡◌, ◌+◌, ◌≤◌, ◌∷◌, IfOk, MatchResult};
ghost use Rattle.std.specs.Prelude.{length, reverse, replicate, drop, nat_eq, position};
ghost use Rattle.std.specs.List.{prefix_len};
ghost use Rattle.definition.specs.Picture.{trim_start, trim as trimmed, repeat, symbol};
ghost use Rattle.picture.specs.Repeats.{opens, Runs, Stops};
ghost use Rattle.picture.specs.Shape.{run_of, unless, joined, Adds, Small, awaits, halves, nothing, counts};

use definition::{MOST_SYMBOLS, Refusal};

// ---------------------------------------------------------------- the repeat of a symbol

/// A text without the white space in front of it.
#[tactic(auto, unfolding(definition::specs::Picture::trim_start))]
fn trim_start(mut s: &[u8]) -> &[u8]
    ensures { result.now ≡ trim_start s.now }
{
    while let [first, rest @ ..] = s
        && text::is_white(*first)
    {
        s = rest;
    }
    s
}

/// A text without the white space after it.
#[tactic(auto, unfolding(definition::specs::Picture::trim_start))]
fn trim_end(mut s: &[u8]) -> &[u8]
    ensures { result.now ≡ reverse (trim_start (reverse s.now)) }
{
    while let [rest @ .., last] = s
        && text::is_white(*last)
    {
        s = rest;
    }
    s
}

/// A text without the white space around it.
#[tactic(auto, unfolding(definition::specs::Picture::trim))]
pub fn trim(s: &[u8]) -> &[u8]
    ensures { result.now ≡ trimmed s.now }
{
    trim_end(trim_start(s))
}

/// Where the first `)` of a text stands.
fn close_at(s: &[u8]) -> Option<usize>
    ensures { result ≡ position (λ b. nat_eq b 41) s.now }
{
    s.iter().position(|b| *b == b')')
}

/// Whether a text begins with a `(`.
fn opens(text: &[u8]) -> bool
    ensures { result ≡ opens text.now }
{
    matches!(text, [b'(', ..])
}

/// How often a symbol stands, and how many bytes after it say so, by the text after its `(`: 22 if no `)` follows, 23
/// for a count that is none, both at `at`.
#[tactic(auto, using(crate::proofs::Repeating::repeat_steps))]
fn repeat_in(inside: &[u8], at: usize) -> Result<(usize, usize), Refusal>
    ensures same { result ≡ repeat at (40 ∷ inside.now) }
    ensures within { IfOk result (λ r. r.1 ≤ length inside.now + 1) }
{
    let k = close_at(inside).ok_or(Refusal::UnclosedRepeat { position: at })?;
    let n = text::count_of(trim(&inside[..k])).ok_or(Refusal::BadRepeat { position: at })?;
    Ok((n as usize, k + 2))
}

/// How often a symbol stands, and how many bytes after it say so, by the text after it: once, and none, if no `(` is
/// there; or why that cannot be read, as `repeat_in` has it.
#[inline(always)]
#[tactic(auto, using(crate::proofs::Repeating::repeat_steps))]
pub fn repeat_at(rest: &[u8], at: usize) -> Result<(usize, usize), Refusal>
    ensures same { result ≡ repeat at rest.now }
    ensures within { IfOk result (λ r. r.1 ≤ length rest.now) }
{
    match rest {
        [b'(', inside @ ..] => repeat_in(inside, at),
        _ => Ok((1, 0)),
    }
}

/// How many bytes in front of a text are this one.
#[tactic(auto, using(crate::proofs::Running::run_steps))]
fn alike(b: u8, text: &[u8]) -> usize
    ensures value { result ≡ prefix_len (λ x. nat_eq x b) text.now }
    ensures within { result ≤ length text.now }
{
    text.iter().take_while(|x| **x == b).count()
}

/// A run of a symbol, by the text after it: how often it stands, and how many bytes after it say so. A symbol written
/// out many times is one run, up to one with a `(` after it, which is a run by itself.
#[tactic(auto, using(crate::proofs::Running::run_steps))]
fn run_at(b: u8, rest: &[u8], at: usize) -> Result<(usize, usize), Refusal>
    ensures run { MatchResult result
        (λ r. Runs at (b ∷ rest.now) r.0 b (drop r.1 rest.now))
        (λ e. Stops at (b ∷ rest.now) e) }
    ensures within { IfOk result (λ r. r.1 ≤ length rest.now) }
{
    if b == b'(' || opens(rest) {
        return repeat_at(rest, at);
    }
    let more = alike(b, rest);
    if opens(&rest[more..]) {
        return Ok((more, more - 1));
    }
    Ok((more + 1, more))
}

// ---------------------------------------------------------------- symbols, judged run by run

/// How often the symbols of each set stand in a list of symbols.
#[derive(Clone, Copy)]
pub struct Tallies {
    /// X and A.
    pub text: u32,
    /// 9, Z and `*`.
    pub digits: u32,
    /// 9, Z and `*` before the point.
    pub whole: u32,
    /// P.
    pub scaled: u32,
    /// V and `.`.
    pub points: u32,
    /// `$`.
    pub dollars: u32,
    /// `+`.
    pub pluses: u32,
    /// `-`.
    pub minuses: u32,
    /// The signs: S, `+`, `-`, C and D.
    pub signs: u32,
    /// The editing symbols: Z, `*`, `.`, `,`, `/`, B, 0, `$`, `+`, `-`, C and D.
    pub edits: u32,
    /// S and V, which take no byte of a mask.
    pub hidden: u32,
    /// All symbols.
    pub symbols: u32,
}

/// A count of what stands before the point, where so many points stand already.
fn before_point(points: u32, n: u32) -> u32
    ensures { result ≡ unless points n }
{
    if points == 0 { n } else { 0 }
}

impl Tallies {
    /// The tallies of no symbols.
    const NONE: Tallies = Tallies {
        text: 0,
        digits: 0,
        whole: 0,
        scaled: 0,
        points: 0,
        dollars: 0,
        pluses: 0,
        minuses: 0,
        signs: 0,
        edits: 0,
        hidden: 0,
        symbols: 0,
    };

    /// One more symbol that stands n times: only the tallies that it touches change.
    fn add(&mut self, b: u8, n: u32)
        requires { Adds self.old n }
        ensures { self.new ≡ joined self.old (run_of b n) }
    {
        self.symbols += n;
        match b {
            b'X' | b'A' => self.text += n,
            b'9' => {
                self.digits += n;
                self.whole += before_point(self.points, n);
            }
            b'Z' | b'*' => {
                self.digits += n;
                self.whole += before_point(self.points, n);
                self.edits += n;
            }
            b'P' => self.scaled += n,
            b'V' => {
                self.points += n;
                self.hidden += n;
            }
            b'S' => {
                self.signs += n;
                self.hidden += n;
            }
            b'.' => {
                self.points += n;
                self.edits += n;
            }
            b',' | b'/' | b'B' | b'0' => self.edits += n,
            b'$' => {
                self.dollars += n;
                self.edits += n;
            }
            b'+' => {
                self.pluses += n;
                self.signs += n;
                self.edits += n;
            }
            b'-' => {
                self.minuses += n;
                self.signs += n;
                self.edits += n;
            }
            b'C' | b'D' => {
                self.signs += n;
                self.edits += n;
            }
            _ => {}
        }
    }
}

/// Whether a byte is a symbol by itself.
// Neighbouring bytes have arms of their own: of two in one arm a range is made, and so all are one test of bits.
fn is_symbol(b: u8) -> bool
    ensures { result ≡ symbol b }
{
    match b {
        b'X' | b'A' | b'9' | b'P' | b'V' | b'S' | b'Z' | b'$' => true,
        b'B' | b'*' | b',' | b'.' | b'0' => true,
        b'+' | b'-' | b'/' => true,
        _ => false,
    }
}

/// What is awaited of CR or DB, or that a byte was seen that is no symbol.
#[derive(Clone, Copy)]
pub enum Half {
    /// Nothing.
    Nothing,
    /// An R, after a C.
    C,
    /// A B, after a D.
    D,
    /// A byte was seen that is no symbol.
    Wrong,
}

impl Half {
    /// Whether every byte was a symbol or half of a CR or DB.
    pub fn is_legal(self) -> bool
        ensures { result ≡ nothing self }
    {
        matches!(self, Half::Nothing)
    }

    /// What is awaited after one more symbol.
    fn next(self, b: u8) -> Half
        ensures { result ≡ awaits self b }
    {
        match (self, b) {
            (Half::Nothing, b'C') => Half::C,
            (Half::Nothing, b'D') => Half::D,
            (Half::Nothing, _) if is_symbol(b) => Half::Nothing,
            (Half::C, b'R') => Half::Nothing,
            (Half::D, b'B') => Half::Nothing,
            _ => Half::Wrong,
        }
    }

    /// What is awaited after a symbol that stands n times: the third and later copies change nothing. The most common
    /// case, a symbol by itself where nothing is awaited, comes first.
    #[tactic(auto, using(crate::proofs::Halves::half_steps))]
    fn after(self, b: u8, n: usize) -> Half
        ensures { result ≡ halves self (replicate n b) }
    {
        if self.is_legal() && is_symbol(b) {
            return self;
        }
        match n {
            0 => self,
            1 => self.next(b),
            _ => self.next(b).next(b),
        }
    }
}

/// The symbols of a trimmed picture, counted run by run, with what is awaited of CR or DB at its end: 22, 23, and 24
/// for more than `MOST_SYMBOLS` symbols, as they are met, all at `at`.
pub fn count_symbols(picture: &[u8], at: usize) -> Result<(Tallies, Half), Refusal>
    ensures same { result ≡ counts at picture.now }
    ensures small { IfOk result (λ r. Small r.0) }
{
    let mut tallies = Tallies::NONE;
    let mut half = Half::Nothing;
    let mut left = picture;
    while let [first, rest @ ..] = left {
        let (n, skip) = run_at(*first, rest, at)?;
        let room = (MOST_SYMBOLS - tallies.symbols) as usize;
        if room < n {
            return Err(Refusal::TooManySymbols { position: at });
        }
        let b = text::upper(*first);
        half = half.after(b, n);
        tallies.add(b, n as u32);
        left = &rest[skip..];
    }
    Ok((tallies, half))
}
