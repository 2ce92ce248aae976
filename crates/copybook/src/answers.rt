//! What a call answers of a copybook's record: a report of its entries written to the output, the owner of a byte, or
//! an extract of its items. Each is a question, which `asking` asks of the record that it reads and lays out;
//! `copybook` has the public entries that ask them.

ghost use Rattle.copybook.specs.Questions.{report_given, owner_given, extract_given};

use definition::{Extract, Owner, Refusal, Report};
use extract::subsets::Terms;
use record::LaidRecord;
use record::asking::Question;
use reports::{details, reasons, writer};

/// This report of the record: how many bytes were written.
#[derive(Clone, Copy)]
pub struct ReportOf {
    /// Which report.
    pub what: Report,
}

impl Question for ReportOf {
    type Reply = usize;

    ghost answers = { report_given };

    #[tactic(auto, unfolding(definition::specs::Calls::report))]
    fn answer(self, laid: LaidRecord, out: &mut [u8]) -> Result<usize, Refusal> {
        match self.what {
            Report::Listing => writer::write_listing(laid, out),
            Report::Details => details::write_details(laid, out),
            Report::Reasons(number) => reasons::write_reasons(laid, number, out),
        }
    }
}

/// The owner of the byte at this position.
#[derive(Clone, Copy)]
pub struct OwnerAt {
    /// The byte's place in the record, from 0.
    pub position: usize,
}

impl Question for OwnerAt {
    type Reply = Owner;

    ghost answers = { owner_given };

    fn answer(self, laid: LaidRecord, _out: &mut [u8]) -> Result<Owner, Refusal> {
        owner::owner_of(laid, self.position)
    }
}

/// The heaviest choice of the record's items that fits, by these terms.
#[derive(Clone, Copy)]
pub struct ExtractBy<'a> {
    /// What each item weighs, and how far a choice may go.
    pub terms: Terms<'a>,
}

impl<'a> Question for ExtractBy<'a> {
    type Reply = Extract;

    ghost answers = { extract_given };

    fn answer(self, laid: LaidRecord, _out: &mut [u8]) -> Result<Extract, Refusal> {
        extract::extract_of(laid, self.terms)
    }
}
