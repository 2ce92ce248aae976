//! Lists of questions: a list is read from its file and replayed, case by case. In a list of limits each case begins
//! with two numbers more: how much work memory is lent, and how many bytes stand before the text: blanks, or X before a
//! picture.

ghost use Rattle.std.specs.Prelude.{◌≡◌, ◌≤◌, length, IfOk};
ghost use Rattle.replay.specs.Counting.{Onward, BareCounted};

use crate::record_cases::owners::Counts;
use crate::record_cases::{extracts, keys, owners};
use crate::report_cases;
use crate::report_cases::Kind;
use crate::text_cases::pictures::Source;
use crate::text_cases::{pictures, readings};
use definition::LEAST_WORK;
use replay::bare::{BareCase, BareCases};
use replay::case::Differs;
use replay::lent::Lent;
use replay::lists::read_list;
use replay::tally::Tally;
use std::io;
use std::rt::Files;

/// The most numbers of work memory that a case lends.
const MOST_WORK: usize = 17000;

/// What the cases of a list ask for.
#[derive(Clone, Copy)]
pub enum Question {
    /// Of a picture.
    Picture(Source),
    /// How a text is read into rows.
    Reading,
    /// Of a report.
    Report(Kind),
    /// Of a position's owner.
    Owner,
    /// Of an extract.
    Extract,
    /// Of a set's key.
    Key,
}

/// Whether a case says how much work memory is lent, and how many bytes stand before its text.
#[derive(Clone, Copy)]
pub enum CaseHead {
    /// It doesn't.
    Plain,
    /// It does.
    Limits,
}

/// A list: its file, what is printed before its counts, and what its cases ask for.
#[derive(Clone, Copy)]
pub struct List<'a> {
    /// The name of its file.
    pub file: &'a [u8],
    /// What is printed before its counts.
    pub what: &'a str,
    /// What its cases ask for.
    pub question: Question,
    /// What its cases begin with.
    pub form: CaseHead,
}

impl<'a> List<'a> {
    /// A list of cases of a form.
    pub fn new(file: &'a [u8], what: &'a str, question: Question, form: CaseHead) -> List<'a>
        ensures file { result.file ≡ file.entry }
        ensures what { result.what ≡ what.entry }
        ensures question { result.question ≡ question }
        ensures form { result.form ≡ form }
    {
        List {
            file,
            what,
            question,
            form,
        }
    }

    /// Goes on where a case agrees: its words ask and answer the question.
    fn agrees(self, case: &mut BareCase) -> Result<(), Differs>
        ensures { case.new.list ≡ case.old.list }
    {
        let mut room = [0; MOST_WORK];
        let (work, before) = match self.form {
            CaseHead::Plain => (LEAST_WORK, 0),
            CaseHead::Limits => (case.take()?, case.take()?),
        };
        if work > MOST_WORK {
            return Err(Differs);
        }
        let lent = Lent {
            work: &mut room[..work],
            before,
        };
        match self.question {
            Question::Picture(source) => pictures::replay(case, source, lent.before),
            Question::Reading => readings::replay(case, lent),
            Question::Report(kind) => report_cases::replay(case, kind, lent),
            Question::Owner => owners::replay(case, lent),
            Question::Extract => extracts::replay(case, lent),
            Question::Key => keys::replay(case, lent),
        }
    }

    /// Counts the cases of the list, which was read, after those of others.
    fn count(self, list: &[u8], counted: &mut Tally)
        ensures { BareCounted list.now counted.old counted.new }
    {
        for mut case in BareCases::of(list) {
            counted.add(self.agrees(&mut case).is_ok());
        }
    }

    /// Replays the list, which was read, after the cases of others, and prints which case is the first that differs.
    pub fn replay(self, rt: &impl Print, list: &[u8], counted: &mut Tally) -> io::Result<()>
        ensures { BareCounted list.now counted.old counted.new }
    {
        let before = counted.first_difference;
        self.count(list, counted);
        print_difference(rt, self.what, before, *counted)
    }
}

/// Prints which case was the first that differed, if one did after those that were counted before.
fn print_difference(
    rt: &impl Print,
    what: &str,
    before: Option<u64>,
    counted: Tally,
) -> io::Result<()> {
    match (before, counted.first_difference) {
        (None, Some(first)) => println!(rt; "{what}: the first that differs is {first}"),
        _ => Ok(()),
    }
}

/// Reads lists one after the other, and prints how many of their cases agree.
#[derive(Drop)]
pub(crate) struct Lists<'a, R> {
    /// Where they are read and printed.
    pub rt: &'a R,
    /// Room for a list.
    // An array: a Vec's memory would rest on three axioms more.
    pub room: [u8; 400_000],
}

impl<'a, R: Files + Print> Lists<'a, R> {
    /// Reads a list and replays it, after the cases of others. What a file holds has no word in a contract: as many
    /// cases are counted as what was read has, which is at most what there is room for.
    #[tactic(auto, using(replay::proofs::TallyLaws::tally_steps))]
    pub(crate) fn replay(&mut self, list: List, counted: &mut Tally) -> io::Result<()>
        ensures onward { Onward counted.old counted.new }
        ensures all { IfOk result (λ _. (read : _)
            × (length read ≤ length self.old.room) × BareCounted read counted.old counted.new) }
    {
        list.replay(
            self.rt,
            read_list(self.rt, list.file, &mut self.room)?,
            counted,
        )
    }

    /// The same of a list alone, and prints how many of its cases agree.
    pub(crate) fn print(&mut self, list: List) -> io::Result<()> {
        self.print_as_one(list.what, &[list])
    }

    /// Prints lists about one thing.
    pub(crate) fn print_all(&mut self, about: &str, lists: &[List]) -> io::Result<()> {
        println!(self.rt; "of {about}")?;
        for list in lists {
            self.print(*list)?;
        }
        Ok(())
    }

    /// Prints lists that are counted as one.
    pub(crate) fn print_as_one(&mut self, what: &str, lists: &[List]) -> io::Result<()> {
        let mut counted = Tally::new();
        for list in lists {
            self.replay(*list, &mut counted)?;
        }
        println!(self.rt; "{what} {counted}")
    }

    /// Reads the list of records, replays it, and prints how many records and positions agree.
    pub(crate) fn print_records(&mut self, file: &[u8]) -> io::Result<()> {
        let list = read_list(self.rt, file, &mut self.room)?;
        let Counts { records, positions } = owners::replay_records(list);
        print_difference(self.rt, "positions", None, positions)?;
        print_difference(self.rt, "records", None, records)?;
        println!(self.rt; "records {records}")?;
        println!(self.rt; "positions {positions}")
    }
}
