//! Answers of `set_key`, in key/keys.txt and limits.txt. A case: the number of lengths and the lengths, the texts one
//! after the other, the name, and the answer: 1, offset and width; or 0 and the refusal's number, position and needed
//! length. Each answer is asked for over work memory that is not zero, and work memory must be zero afterwards.

ghost use Rattle.std.specs.Prelude.{◌≡◌, IsOk, IsTrue};
ghost use Rattle.replay.specs.Bare.{bare_ahead};
ghost use Rattle.replay.specs.Words.{is_end};

use crate::record_cases::take_all;
use replay::bare::BareCase;
use replay::case::Differs;
use replay::lent::{Lent, TEXT_ROOM, replay_call};

/// The most lengths that a case has.
const LENGTHS: usize = 32;

/// Goes on where the next words ask for a key and answer, with blanks before the texts.
pub fn replay(case: &mut BareCase, lent: Lent) -> Result<(), Differs>
    ensures list { case.new.list ≡ case.old.list }
    ensures ended { IsOk result → IsTrue (is_end (bare_ahead case.new.list.now case.new.at)) }
{
    let mut all = [0; LENGTHS];
    let mut room = [b' '; 2 * TEXT_ROOM];
    let mut name_room = [0; 1000];
    let lengths = take_all(case, &mut all)?;
    let texts = case.input(&mut room, lent.before)?;
    let name = case.input(&mut name_room, 0)?;
    match replay_call(
        lent.work,
        |work| copybook::set_key(texts, lengths, name, work),
    )? {
        Ok(key) => case.numbers(&[1, key.offset as u64, key.width as u64])?,
        Err(r) => case.refusal(r)?,
    }
    case.end()
}
