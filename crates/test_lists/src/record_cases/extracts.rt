//! Answers of `extract`, in extract/extracts.txt and limits.txt. A case: the text, the number of weights and the
//! weights, the limit, the budget, and the answer: 1, the subset, its weight, how many were looked at and how far off
//! it is; or 0 and the refusal's number, position and needed length. Each answer is asked for over work memory that is
//! not zero, and work memory must be zero afterwards.

ghost use Rattle.std.specs.Prelude.{◌≡◌, IsOk, IsTrue};
ghost use Rattle.replay.specs.Bare.{bare_ahead};
ghost use Rattle.replay.specs.Words.{is_end};

use crate::record_cases::take_all;
use replay::bare::BareCase;
use replay::case::Differs;
use replay::lent::{Lent, TEXT_ROOM, replay_call};

/// The most weights that a case has.
const WEIGHTS: usize = 32;

/// Goes on where the next words ask for an extract and answer, with blanks before the text.
pub fn replay(case: &mut BareCase, lent: Lent) -> Result<(), Differs>
    ensures list { case.new.list ≡ case.old.list }
    ensures ended { IsOk result → IsTrue (is_end (bare_ahead case.new.list.now case.new.at)) }
{
    let mut room = [b' '; TEXT_ROOM];
    let mut all = [0; WEIGHTS];
    let text = case.input(&mut room, lent.before)?;
    let weights = take_all(case, &mut all)?;
    let limit = case.take()?;
    let budget = case.take()?;
    match replay_call(
        lent.work,
        |work| copybook::extract(text, weights, limit, budget, work),
    )? {
        Ok(e) => case.numbers(&[
            1,
            e.subset as u64,
            e.weight as u64,
            e.examined as u64,
            e.off as u64,
        ])?,
        Err(r) => case.refusal(r)?,
    }
    case.end()
}
