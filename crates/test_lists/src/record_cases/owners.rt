//! Answers of `byte_owner`. owner/records.txt has generated copybooks, each with its whole record: how many runs it
//! has, and for each run a mark (1 a piece, 2 slack), the entry's number and how many bytes; the owner of every byte is
//! asked for, and then past the record's end, where the answer is 41. owner/asked.txt and limits.txt have copybooks
//! with one position and its answer: 1, entry, first byte and place inside; 2 and the entry of slack; or 0 and the
//! refusal's number, position and needed length. Each answer is asked for over work memory that is not zero, and work
//! memory must be zero afterwards.

ghost use Rattle.std.specs.Prelude.{◌≡◌, ◌≤◌, ◌<◌, ◌↔◌, ◌+◌, min, IsOk, IsTrue};
ghost use Rattle.replay.specs.Tallies.{most};
ghost use Rattle.replay.specs.Counting.{bare_cases, Onward};
ghost use Rattle.replay.specs.Bare.{bare_ahead};
ghost use Rattle.replay.specs.Words.{is_end};

use definition::{LEAST_WORK, MOST_BYTES, Owner, Refusal};
use replay::bare::{BareCase, BareCases};
use replay::case::Differs;
use replay::lent::{Lent, TEXT_ROOM, replay_call};
use replay::tally::Tally;

// ---------------------------------------------------------------- one position and its answer

/// Goes on where the next words ask for the owner of a position and answer, with blanks before the text.
pub fn replay(case: &mut BareCase, lent: Lent) -> Result<(), Differs>
    ensures list { case.new.list ≡ case.old.list }
    ensures ended { IsOk result → IsTrue (is_end (bare_ahead case.new.list.now case.new.at)) }
{
    let mut room = [b' '; TEXT_ROOM];
    let text = case.input(&mut room, lent.before)?;
    let position = case.take()?;
    match replay_call(lent.work, |work| copybook::byte_owner(text, position, work))? {
        Ok(
            Owner::Piece {
                entry,
                first,
                place,
            },
        ) => case.numbers(&[1, entry as u64, first as u64, place as u64])?,
        Ok(Owner::Slack { entry }) => case.numbers(&[2, entry as u64])?,
        Err(r) => case.refusal(r)?,
    }
    case.end()
}

// ---------------------------------------------------------------- every byte of a record

/// What the bytes of a run belong to.
#[derive(Clone, Copy)]
enum Mark {
    Piece,
    Slack,
}

impl TryFrom<u64> for Mark {
    type Error = Differs;

    fn try_from(n: u64) -> Result<Mark, Differs> {
        match n {
            1 => Ok(Mark::Piece),
            2 => Ok(Mark::Slack),
            _ => Err(Differs),
        }
    }
}

/// The words of a record, which are read as long as each is a number.
#[derive(Clone, Copy)]
struct Words<'a> {
    case: BareCase<'a>,
    whole: bool,
}

impl<'a> Words<'a> {
    /// The next number; 0 from the first word on that is none.
    fn number(&mut self) -> u64 {
        if !self.whole {
            return 0;
        }
        match self.case.take_number() {
            Ok(n) => n,
            Err(Differs) => {
                self.whole = false;
                0
            }
        }
    }
}

/// So many bytes of a record from a first one on, that belong to a piece or to the slack before an entry; to none where
/// the mark is another.
#[derive(Clone, Copy)]
struct Run {
    mark: Option<Mark>,
    entry: usize,
    first: usize,
    width: u64,
}

impl Run {
    /// The next three words as a run that begins there.
    fn take(words: &mut Words, first: usize) -> Run
        ensures { result.first ≡ first }
    {
        let mark = Mark::try_from(words.number()).ok();
        let entry = words.number() as usize;
        Run {
            mark,
            entry,
            first,
            width: words.number(),
        }
    }

    /// Where it ends. No record of the list has more than 400 bytes; a run that would go far beyond counts as empty,
    /// and then its bytes are missed.
    fn end(self) -> usize
        ensures { self.first ≤ result }
    {
        if MOST_BYTES < self.first || (MOST_BYTES as u64) < self.width {
            return self.first;
        }
        self.first + self.width as usize
    }

    /// The owner of a position, as the run says.
    fn owner(self, position: usize) -> Option<Owner>
        requires { self.first ≤ position }
    {
        match self.mark? {
            Mark::Piece => Some(Owner::Piece {
                entry: self.entry,
                first: self.first,
                place: position - self.first,
            }),
            Mark::Slack => Some(Owner::Slack { entry: self.entry }),
        }
    }
}

/// What owns a position, if work memory is zero after the call.
fn owner_of(text: &[u8], position: usize) -> Result<Result<Owner, Refusal>, Differs> {
    let mut work = [0; LEAST_WORK];
    replay_call(&mut work, |work| copybook::byte_owner(text, position, work))
}

/// Whether the owner of a position is what the run says.
fn is_owned(text: &[u8], position: usize, run: Run) -> bool
    requires { run.first ≤ position }
{
    match owner_of(text, position) {
        Ok(Ok(owner)) => Some(owner) == run.owner(position),
        _ => false,
    }
}

/// Whether a position is refused with 41.
fn is_past(text: &[u8], position: usize) -> bool {
    matches!(owner_of(text, position), Ok(Err(Refusal::OutsideRecord)))
}

/// Replays the positions past the end of a record of so many bytes, which is the end of the case.
#[tactic(auto, using(replay::proofs::TallyLaws::tally_steps))]
fn replay_end(words: Words, text: &[u8], length: usize, positions: &mut Tally)
    ensures { Onward positions.old positions.new }
{
    positions.add(words.whole && words.case.end().is_ok() && is_past(text, length));
    if length <= MOST_BYTES {
        for position in [length + 1, 1 << 32, 1 << 63, usize::MAX] {
            positions.add(is_past(text, position));
        }
    }
}

/// Replays every position of a record: its runs, as far as its words are what they should be, and the end.
#[tactic(auto, using(replay::proofs::TallyLaws::tally_steps))]
fn replay_record(case: BareCase, positions: &mut Tally)
    ensures { Onward positions.old positions.new }
{
    let mut room = [0; TEXT_ROOM];
    let mut case = case;
    let before = case.at;
    // An input that is too long is as long as the room.
    let (length, whole) = match case.input(&mut room, 0) {
        Ok(text) => (text.len(), true),
        Err(Differs) if before < case.at => (TEXT_ROOM, false),
        Err(Differs) => (0, false),
    };
    let text = &room[..length.min(TEXT_ROOM)];
    let mut words = Words { case, whole };
    let mut first = 0;
    for _ in 0..words.number() {
        let run = Run::take(&mut words, first);
        for position in run.first..run.end() {
            positions.add(is_owned(text, position, run));
        }
        first = run.end();
        if !words.whole {
            return replay_end(words, text, first, positions);
        }
    }
    replay_end(words, text, first, positions);
}

/// Replays a record. Whether none of its positions differs.
#[tactic(auto, using(replay::proofs::TallyLaws::tally_steps))]
fn agrees(case: BareCase, positions: &mut Tally) -> bool
    ensures onward { Onward positions.old positions.new }
    ensures agrees { IsTrue result
        ↔ (positions.new.cases + positions.old.agree ≤ positions.old.cases + positions.new.agree) }
{
    let before = positions.differing();
    replay_record(case, positions);
    positions.differing() <= before
}

/// How many records and positions there were, and how many agreed.
#[derive(Clone, Copy)]
pub struct Counts {
    /// The records.
    pub records: Tally,
    /// The positions of all records.
    pub positions: Tally,
}

/// Replays a list of records. A record agrees if none of its positions differs; where its words are other than they
/// should be, the first position past its runs does.
pub fn replay_records(list: &[u8]) -> Counts
    ensures records { result.records.cases ≡ min most (bare_cases list.now) }
    ensures differing { result.records.cases + result.positions.agree
        ≤ result.positions.cases + result.records.agree }
    ensures says { result.records.cases < most
        → result.records.agree ≡ result.records.cases
        → result.positions.agree ≡ result.positions.cases }
{
    let mut records = Tally::new();
    let mut positions = Tally::new();
    for case in BareCases::of(list) {
        records.add(agrees(case, &mut positions));
    }
    Counts { records, positions }
}
