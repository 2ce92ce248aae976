//! Cards as the reader sees them: free text of the same length, in which what is ignored is blank; and refusal 51, the
//! first indicator that is none of the four.

ghost use Rattle.std.specs.Prelude.{◌≡◌, ◌≤◌, ◌&&◌, eqb, length, MatchResult};
ghost use Rattle.definition.specs.Basic.{Err};
ghost use Rattle.definition.specs.Calls.{card_checks};
ghost use Rattle.definition.specs.declared.TheConstants.{MOST_BYTES};
ghost use Rattle.definition.specs.Cards.{indicator_column, column_next, code_next, shown as shown_as, line_ends};
ghost use Rattle.definition.specs.Cards.{other_indicator};
ghost use Rattle.text.specs.Viewed.{ViewRoom, Viewed, CardsSeen};

use definition::Refusal;

// The column of the indicator, and the last one that is read.
const INDICATOR: usize = 7;

const LAST: usize = 72;

/// The column of the byte after b, which stands in column n.
fn column_next(n: usize, b: u8) -> usize
    requires { n ≤ MOST_BYTES }
    ensures { result ≡ column_next n b }
{
    if b == b'\n' { 1 } else { n + 1 }
}

/// Whether the byte after b stands on a line of code, behind its indicator.
fn code_next(n: usize, code: bool, b: u8) -> bool
    ensures { result ≡ code_next n code b }
{
    if n == INDICATOR {
        b == b' '
    } else {
        code && b != b'\n'
    }
}

/// A byte in column n as the reader sees it.
fn shown(n: usize, code: bool, b: u8) -> u8
    ensures { result ≡ shown_as n code b }
{
    if (code && n <= LAST) || b == b'\n' {
        b
    } else {
        b' '
    }
}

/// Whether a line ends before these bytes.
fn line_ends(rest: &[u8]) -> bool
    ensures { result ≡ line_ends rest.now }
{
    match rest {
        [b, ..] => *b == b'\n',
        [] => true,
    }
}

/// Whether a byte before these, in the indicator's column, is none of the four and doesn't end its line.
fn other_indicator(b: u8, rest: &[u8]) -> bool
    ensures { result ≡ other_indicator b rest.now }
{
    match b {
        b' ' | b'*' | b'/' | b'D' | b'\n' => false,
        b'\r' => !line_ends(rest),
        _ => true,
    }
}

/// Whether the byte in column n before these is refused.
fn is_refused(n: usize, b: u8, rest: &[u8]) -> bool
    ensures { result ≡ (eqb n indicator_column && other_indicator b rest.now) }
{
    n == INDICATOR && other_indicator(b, rest)
}

/// Refusal 51; where there is none, the first bytes of `view` are then the view of the cards.
fn view_into(cards: &[u8], view: &mut [u8]) -> Result<(), Refusal>
    requires { ViewRoom cards.now view.old }
    ensures { Viewed cards.now result view.new }
{
    let mut n = 1;
    let mut code = false;
    for i in 0..cards.len() {
        let b = cards[i];
        if is_refused(n, b, &cards[i + 1..]) {
            return Err(Refusal::BadIndicator { position: i });
        }
        view[i] = shown(n, code, b);
        code = code_next(n, code, b);
        n = column_next(n, b);
    }
    Ok(())
}

/// What the reader sees of cards, made in the room that is lent, where the checks pass: 1 to 3 of the whole text and
/// then 51. Every entry for cards starts so, and goes on as the one for free text.
#[tactic(auto, unfolding(definition::specs::Calls::card_checks, definition::specs::Basic::and_then))]
pub fn read_cards<'a>(
    cards: &[u8],
    work_len: usize,
    room: &'a mut [u8],
) -> Result<&'a [u8], Refusal>
    requires { MOST_BYTES ≤ length room.old }
    ensures { MatchResult result
        (λ seen. CardsSeen cards.now work_len seen.now)
        (λ r. card_checks cards.now work_len ≡ Err r) }
{
    crate::entry_checks(cards, work_len)?;
    view_into(cards, room)?;
    Ok(&room[..cards.len()])
}
