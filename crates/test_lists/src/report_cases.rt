//! Answers of the calls that report on a copybook, free text or cards. Of `layout_listing`: layout/layouts1.txt to
//! layouts4.txt have generated copybooks, layout/document.txt those that the rules speak of; of `layout_cards`:
//! layout/cards.txt. A case: the text, and the answer: 1, the length of the listing and its bytes; or 0 and the
//! refusal's number, position and needed length. Of `layout_details` and `layout_details_cards`:
//! details/details.txt, where 1 for cards or 0 stands before the text; of `entry_reasons` and `entry_reasons_cards`:
//! reasons/reasons.txt, where the entry's number stands between the two. Each folder has limits.txt. Each answer is
//! asked for with different lengths of output, each time over work memory that is not zero and an output that holds a
//! pattern: work memory must be zero afterwards, and the pattern must stand wherever nothing was to be written.

ghost use Rattle.std.specs.Prelude.{◌≡◌, eqb, if◌then◌else◌, IsOk, IsTrue};
ghost use Rattle.replay.specs.Bare.{bare_ahead};
ghost use Rattle.replay.specs.Words.{is_end};
ghost use Rattle.test_lists.specs.declared.report_cases.Form.TheVariants.{Cards, Free};

use definition::{Refusal, Report};
use replay::bare::BareCase;
use replay::case::{Differs, only};
use replay::lent::{Lent, TEXT_ROOM, is_untouched, patterned, replay_call};

/// The most room that an output is given: more than any report needs.
const ROOM: usize = 80000;

// ---------------------------------------------------------------- one answer

/// What the cases of a list ask for.
#[derive(Clone, Copy)]
pub enum Kind {
    /// The listing of free text.
    Listing,
    /// The listing of cards.
    CardListing,
    /// The details, of free text or of cards.
    Details,
    /// An entry's reasons, of free text or of cards.
    Reasons,
}

/// How a text is written: free, or on cards.
#[derive(Clone, Copy)]
enum Form {
    Free,
    Cards,
}

/// The form that a number says: 1 for cards.
impl From<u64> for Form {
    ghost from_gives = { λ n f. f ≡ (if eqb n 1 then Cards else Free) };

    fn from(n: u64) -> Form {
        match n {
            1 => Form::Cards,
            _ => Form::Free,
        }
    }
}

/// What a case asks for: a report on a text.
#[derive(Clone, Copy)]
struct Asked<'a> {
    report: Report,
    form: Form,
    text: &'a [u8],
}

impl<'a> Asked<'a> {
    /// The answer.
    fn answer(self, work: &mut [u32], out: &mut [u8]) -> Result<usize, Refusal> {
        match (self.report, self.form) {
            (Report::Listing, Form::Free) => copybook::layout_listing(self.text, work, out),
            (Report::Listing, Form::Cards) => copybook::layout_cards(self.text, work, out),
            (Report::Details, Form::Free) => copybook::layout_details(self.text, work, out),
            (Report::Details, Form::Cards) => copybook::layout_details_cards(self.text, work, out),
            (Report::Reasons(n), Form::Free) => copybook::entry_reasons(self.text, n, work, out),
            (Report::Reasons(n), Form::Cards) => {
                copybook::entry_reasons_cards(self.text, n, work, out)
            }
        }
    }

    /// The answer in an output, if work memory is zero after the call.
    fn ask(self, work: &mut [u32], out: &mut [u8]) -> Result<Result<usize, Refusal>, Differs> {
        replay_call(work, |work| self.answer(work, out))
    }
}

/// What a case asks for, and the work memory that it lends.
#[derive(Drop)]
struct Asking<'a, 'w> {
    asked: Asked<'a>,
    work: &'w mut [u32],
}

impl<'a, 'w> Asking<'a, 'w> {
    /// Goes on where the last words of the case are the answer with so much room.
    fn answered(&mut self, case: &mut BareCase, room: usize) -> Result<(), Differs>
        ensures list { case.new.list ≡ case.old.list }
        ensures ended { IsOk result → IsTrue (is_end (bare_ahead case.new.list.now case.new.at)) }
    {
        if ROOM < room {
            return Err(Differs);
        }
        let mut out = patterned::<ROOM>();
        let answer = self.asked.ask(self.work, &mut out[..room])?;
        case.writing(answer, &out)?;
        case.end()
    }

    /// Goes on where an output that is one byte short is refused with 31 and the needed length, and holds the pattern
    /// then.
    fn short(&mut self, needed: usize) -> Result<(), Differs> {
        if ROOM < needed {
            return Err(Differs);
        }
        let Some(room) = needed.checked_sub(1) else {
            return Ok(());
        };
        let mut out = patterned::<ROOM>();
        match self.asked.ask(self.work, &mut out[..room])? {
            Err(Refusal::OutputTooShort { needed: n }) => only(
                n == needed && is_untouched(&out, 0),
            ),
            _ => Err(Differs),
        }
    }

    /// Goes on where an answer of this length is written to an output that has room to spare, its length, or one byte
    /// more, and one byte less is refused.
    fn written(&mut self, case: &mut BareCase, needed: usize) -> Result<(), Differs>
        ensures list { case.new.list ≡ case.old.list }
        ensures ended { IsOk result → IsTrue (is_end (bare_ahead case.new.list.now case.new.at)) }
    {
        if needed >= ROOM {
            return Err(Differs);
        }
        let told = *case;
        for room in [ROOM, needed] {
            let mut again = told;
            self.answered(&mut again, room)?;
        }
        self.short(needed)?;
        self.answered(case, needed + 1)
    }

    /// Goes on where the next words are the answer, with every length of output: a refusal comes with room and with
    /// none.
    fn replay(&mut self, case: &mut BareCase) -> Result<(), Differs>
        ensures list { case.new.list ≡ case.old.list }
        ensures ended { IsOk result → IsTrue (is_end (bare_ahead case.new.list.now case.new.at)) }
    {
        let mut told = *case;
        if told.take_number()? == 1 {
            return self.written(case, told.take()?);
        }
        let mut again = *case;
        self.answered(&mut again, ROOM)?;
        self.answered(case, 0)
    }
}

// ---------------------------------------------------------------- cases

/// Goes on where the next words ask for a report of a kind and answer, with blanks before the text.
pub fn replay(case: &mut BareCase, kind: Kind, lent: Lent) -> Result<(), Differs>
    ensures list { case.new.list ≡ case.old.list }
    ensures ended { IsOk result → IsTrue (is_end (bare_ahead case.new.list.now case.new.at)) }
{
    let mut room = [b' '; TEXT_ROOM];
    let (report, form) = match kind {
        Kind::Listing => (Report::Listing, Form::Free),
        Kind::CardListing => (Report::Listing, Form::Cards),
        Kind::Details => (Report::Details, Form::from(case.take_number()?)),
        Kind::Reasons => {
            let form = Form::from(case.take_number()?);
            (Report::Reasons(case.take()?), form)
        }
    };
    let text = case.input(&mut room, lent.before)?;
    let mut asking = Asking {
        asked: Asked { report, form, text },
        work: lent.work,
    };
    asking.replay(case)
}
