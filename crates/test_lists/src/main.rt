//! Replays the lists of data/, each made by tools/make_lists.py, and prints of each how many of its cases agree. A list
//! is a file, and a case the words up to a period: the question, and the numbers of the answer that is due (the crate
//! `replay` reads them). `text_cases`, `report_cases` and `record_cases` have each kind of question, and say what the
//! words of a case are.
#![tactic(auto)]

mod lists;

use crate::report_cases::Kind;
use crate::text_cases::pictures::Source;
use lists::{CaseHead, List, Lists, Question};
use std::io;

pub mod record_cases;
pub mod report_cases;
pub mod text_cases;

fn main(rt: HostRuntime) -> io::Result<()> {
    let mut lists = Lists {
        rt: &rt,
        room: [0; 400_000],
    };
    lists.print_all(
        "pictures",
        &[
            List::new(
                b"picture/pictures.txt",
                "pictures",
                Question::Picture(Source::Rust),
                CaseHead::Plain,
            ),
            List::new(
                b"picture/document.txt",
                "document",
                Question::Picture(Source::Document),
                CaseHead::Plain,
            ),
            List::new(
                b"picture/limits.txt",
                "long pictures",
                Question::Picture(Source::Document),
                CaseHead::Limits,
            ),
        ],
    )?;
    lists.print_all(
        "readings",
        &[
            List::new(
                b"reader/texts.txt",
                "texts",
                Question::Reading,
                CaseHead::Plain,
            ),
            List::new(
                b"reader/limits.txt",
                "limits",
                Question::Reading,
                CaseHead::Limits,
            ),
        ],
    )?;
    println!(lists.rt; "of listings")?;
    let listing = Question::Report(Kind::Listing);
    lists.print_as_one(
        "parse",
        &[
            List::new(b"layout/layouts1.txt", "parse", listing, CaseHead::Plain),
            List::new(b"layout/layouts2.txt", "parse", listing, CaseHead::Plain),
            List::new(b"layout/layouts3.txt", "parse", listing, CaseHead::Plain),
            List::new(b"layout/layouts4.txt", "parse", listing, CaseHead::Plain),
        ],
    )?;
    for list in [
        List::new(
            b"layout/document.txt",
            "document",
            Question::Report(Kind::Listing),
            CaseHead::Plain,
        ),
        List::new(
            b"layout/cards.txt",
            "cards",
            Question::Report(Kind::CardListing),
            CaseHead::Plain,
        ),
        List::new(
            b"layout/limits.txt",
            "limits",
            Question::Report(Kind::Listing),
            CaseHead::Limits,
        ),
    ] {
        lists.print(list)?;
    }
    println!(lists.rt; "of owners")?;
    lists.print_records(b"owner/records.txt")?;
    for list in [
        List::new(
            b"owner/asked.txt",
            "asked",
            Question::Owner,
            CaseHead::Plain,
        ),
        List::new(
            b"owner/limits.txt",
            "limits",
            Question::Owner,
            CaseHead::Limits,
        ),
    ] {
        lists.print(list)?;
    }
    lists.print_all(
        "details",
        &[
            List::new(
                b"details/details.txt",
                "details",
                Question::Report(Kind::Details),
                CaseHead::Plain,
            ),
            List::new(
                b"details/limits.txt",
                "limits",
                Question::Report(Kind::Details),
                CaseHead::Limits,
            ),
        ],
    )?;
    lists.print_all(
        "reasons",
        &[
            List::new(
                b"reasons/reasons.txt",
                "reasons",
                Question::Report(Kind::Reasons),
                CaseHead::Plain,
            ),
            List::new(
                b"reasons/limits.txt",
                "limits",
                Question::Report(Kind::Reasons),
                CaseHead::Limits,
            ),
        ],
    )?;
    lists.print_all(
        "extracts",
        &[
            List::new(
                b"extract/extracts.txt",
                "extracts",
                Question::Extract,
                CaseHead::Plain,
            ),
            List::new(
                b"extract/limits.txt",
                "limits",
                Question::Extract,
                CaseHead::Limits,
            ),
        ],
    )?;
    lists.print_all(
        "keys",
        &[
            List::new(b"key/keys.txt", "keys", Question::Key, CaseHead::Plain),
            List::new(b"key/limits.txt", "limits", Question::Key, CaseHead::Limits),
        ],
    )
}
