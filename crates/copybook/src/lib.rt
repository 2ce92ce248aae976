//! The public entries: what a copybook's columns are, and which of them has a byte, in free text and on cards; and
//! which of them fit into a short record; and what the words of a copybook are. Each answers in full or with one
//! refusal of docs/REFUSALS.md; a refusal changes no byte of the output, and work memory is zero after every call. What
//! is asked of a record is a question of `answers`.
//!
//! The reader's refusals, in this order: 1 a text that is too long; 2 a byte over 127, at the first one; 3 too little
//! work memory; on cards 51, at the first byte in column 7 that is no blank and marks no line that is ignored; 50 a
//! literal that its line does not close, at the opening mark of the first one; each statement's 10 to 14; each sibling
//! list's, item's and fold's 20 to 30, a float's 52 in the place of 21; 29 for a top-level end. A picture's: 1 and 2;
//! then symbol by symbol 22 no `)`, 23 no repeat count, 24 too many symbols; then 25 no symbol, 26 text mixed with a
//! digit or editing, 27 too many digits, P included, or too long a mask under DISPLAY; at 0 except 2.
#![tactic(auto)]

ghost use Rattle.std.specs.Prelude.{◌≡◌, []};
ghost use Rattle.definition.specs.Calls.{left, layout_call, details_call, reasons_call, owner_call};
ghost use Rattle.definition.specs.Calls.{words_call, extract_call, mask_call, picture_answer, record_check};
ghost use Rattle.definition.specs.Key.{key_call};

use crate::answers::{ExtractBy, OwnerAt, ReportOf};
use definition::{Extract, Form, KeyColumn, Owner, Pictured, Refusal, Report, SignKind, Usage};
use extract::subsets::Terms;
use key::family;
use layout::limits;
use picture::mask;
use record::asking;

pub mod answers;

/// The layout listing of a copybook: how many bytes were written. Refusals: the reader's; then 31, with the length of
/// the listing, if the output is shorter.
/// A refusal changes no byte of the output, bytes past the listing keep their values, and work memory is zero after
/// every call. The contract rules out a program that starts every item at its list's beginning, and one that refuses
/// every copybook.
#[tactic(auto, using(crate::proofs::Same::report_steps))]
pub fn layout_listing(text: &[u8], work: &mut [u32], out: &mut [u8]) -> Result<usize, Refusal>
    ensures { left result out.new work.new
        ≡ layout_call Form.FreeText text.now out.old work.old }
{
    asking::answer(
        Form::FreeText,
        ReportOf {
            what: Report::Listing,
        },
        text,
        work,
        out,
    )
}

/// The details of the listing: a head of 17 bytes, then 63 for each entry, in the order of the listing, numbers
/// little-endian. The head: of the root that was dropped the position (4) and level (1) of its statement, start and
/// length of its name (8), 0 where none was; and the number of entries (4). An entry: the position of the statement
/// (4), its level (1), the entry's depth (1), 1 for a group made by folding (1), the number of entries below it (4),
/// its first byte in the record (8), the slack bytes directly before it (4), start and length of its picture, its
/// REDEFINES and its DEPENDING ON as the statement has them (8 each, 0 where absent); the slack bytes at the end of
/// each occurrence, which its width counts (4); of a number, edited ones included, the digits (1), those after the
/// point (1) and whether its picture is signed (1); start and length of the word that names the usage that holds for it
/// (8), its own or that of the nearest group above it; and SIGN (1): 0 none, 1 TRAILING or neither word, 2 LEADING, 3
/// and 4 the same with SEPARATE. A group made by folding has its base's position and level, and 0 for the slack and all
/// clauses. Answer, output and work memory are as in `layout_listing`, and so are the refusals: 31 has the length of
/// the details. The contract rules out a program that takes an entry's offset for its first byte, and one that gives a
/// fold its base's slack.
#[tactic(auto, using(crate::proofs::Same::report_steps))]
pub fn layout_details(text: &[u8], work: &mut [u32], out: &mut [u8]) -> Result<usize, Refusal>
    ensures { left result out.new work.new
        ≡ details_call Form.FreeText text.now out.old work.old }
{
    asking::answer(
        Form::FreeText,
        ReportOf {
            what: Report::Details,
        },
        text,
        work,
        out,
    )
}

/// The owner of the byte at a position of the record: an occurrence of an elementary item, with its entry's number in
/// the listing, its first byte in the record and the place inside it, or slack, with the number of the entry it stands
/// before, or of the group at the end of whose occurrence it stands. Refusals: the reader's; then 40 for a REDEFINES or
/// DEPENDING ON, a dropped root's own aside, and 41 for a position that is not below the record length. Work memory is
/// zero after every call. The contract rules out a program that answers with the next occurrence, and one that aligns
/// from the list's start.
pub fn byte_owner(text: &[u8], position: usize, work: &mut [u32]) -> Result<Owner, Refusal>
    ensures { left result [] work.new
        ≡ owner_call Form.FreeText text.now position work.old }
{
    asking::answer(Form::FreeText, OwnerAt { position }, text, work, &mut [])
}

/// The reasons of an entry's place, by its number in the listing, from 0: 13 bytes for each, numbers little-endian. Its
/// kind (1): 1 first in its list, 2 directly after the sibling named, 3 slack, 4 laid over the item named, 5 inside the
/// group named; start and length of that item's name (4 each, 0 if none or without a name); the bytes that it adds (4).
/// The item's placing reason comes first, then its slack, then for each group outward kind 5 and the group's own
/// reasons; a dropped root gives none, and a group made by folding has its base's reasons. Added up they are the
/// entry's first byte in the record. Refusals: the reader's; then 53 for a number past the listing, and 31, with the
/// length of the reasons. Answer, output and work memory are as in `layout_listing`. The contract rules out a program
/// that names the sibling directly before although it is a redefiner, and one that stops at the first group.
#[tactic(auto, using(crate::proofs::Same::report_steps))]
pub fn entry_reasons(
    text: &[u8],
    number: usize,
    work: &mut [u32],
    out: &mut [u8],
) -> Result<usize, Refusal>
    ensures { left result out.new work.new
        ≡ reasons_call Form.FreeText text.now number out.old work.old }
{
    let question = ReportOf {
        what: Report::Reasons(number),
    };
    asking::answer(Form::FreeText, question, text, work, out)
}

/// The layout listing of cards, a copybook in COBOL reference format: `layout_listing` of what the reader sees of them.
/// Columns 1 to 6 and those after 72 are ignored, and so are lines with `*`, `/` or `D` in column 7; a carriage return
/// that ends a line is no column. Refusals: the reader's, 1 and 2 of the whole text; then 31. Positions and places are
/// those in the card text. The contract rules out a program that reads column 73, and one whose positions count columns
/// of code alone.
#[tactic(auto, using(crate::proofs::Same::report_steps))]
pub fn layout_cards(cards: &[u8], work: &mut [u32], out: &mut [u8]) -> Result<usize, Refusal>
    ensures { left result out.new work.new
        ≡ layout_call Form.Cards cards.now out.old work.old }
{
    asking::answer(
        Form::Cards,
        ReportOf {
            what: Report::Listing,
        },
        cards,
        work,
        out,
    )
}

/// The details of the entries of cards: `layout_details` of what the reader sees. Refusals as `layout_cards`; 31 has
/// the length of the details. The contract rules out a program that gives a position in the code alone, and one that
/// takes column 7 for code.
#[tactic(auto, using(crate::proofs::Same::report_steps))]
pub fn layout_details_cards(
    cards: &[u8],
    work: &mut [u32],
    out: &mut [u8],
) -> Result<usize, Refusal>
    ensures { left result out.new work.new
        ≡ details_call Form.Cards cards.now out.old work.old }
{
    asking::answer(
        Form::Cards,
        ReportOf {
            what: Report::Details,
        },
        cards,
        work,
        out,
    )
}

/// The reasons of an entry of cards: `entry_reasons` of what the reader sees. Refusals: the reader's, then 53 and 31.
/// The contract rules out a program that gives a name's place in the code alone, and one that takes column 7 for code.
#[tactic(auto, using(crate::proofs::Same::report_steps))]
pub fn entry_reasons_cards(
    cards: &[u8],
    number: usize,
    work: &mut [u32],
    out: &mut [u8],
) -> Result<usize, Refusal>
    ensures { left result out.new work.new
        ≡ reasons_call Form.Cards cards.now number out.old work.old }
{
    let question = ReportOf {
        what: Report::Reasons(number),
    };
    asking::answer(Form::Cards, question, cards, work, out)
}

/// The owner of a byte of the record that cards describe: `byte_owner` of what the reader sees. Refusals: the reader's,
/// then 40 and 41.
/// The contract rules out a program that takes a hyphen line for code, and one that reads column 73.
pub fn byte_owner_cards(cards: &[u8], position: usize, work: &mut [u32]) -> Result<Owner, Refusal>
    ensures { left result [] work.new
        ≡ owner_call Form.Cards cards.now position work.old }
{
    asking::answer(Form::Cards, OwnerAt { position }, cards, work, &mut [])
}

/// The words of a copybook as the reader has them, statement by statement, also where what they say is refused: of each
/// statement that has words, level 88 and those that cannot be read among them, how many they are (4), the position of
/// the period that ends it, or the length of the text where none does (4), and start and length of each word (4 each),
/// numbers little-endian. Refusals: 1, 2 and 3, then 50; then 31, with the length of the words. Answer, output and work
/// memory are as in `layout_listing`. The contract rules out a program that ends a statement behind its period, and one
/// that does not count a statement's first word.
pub fn words(text: &[u8], work: &mut [u32], out: &mut [u8]) -> Result<usize, Refusal>
    ensures { left result out.new work.new
        ≡ words_call Form.FreeText text.now out.old work.old }
{
    wording::write_words(Form::FreeText, text, work, out)
}

/// The words of cards: `words` of what the reader sees of them, at their places in the card text. Refusals: 1, 2 and 3,
/// then 51, then 50; then 31. The contract rules out a program that reads column 73, and one that takes column 7 for
/// code.
pub fn words_cards(cards: &[u8], work: &mut [u32], out: &mut [u8]) -> Result<usize, Refusal>
    ensures { left result out.new work.new
        ≡ words_call Form.Cards cards.now out.old work.old }
{
    wording::write_words(Form::Cards, cards, work, out)
}

/// An extract that fits: of the record's top-level items, each with a weight in the listing's order, the heaviest
/// choice whose reserved widths sum to at most the limit, among the first subsets, as many as the budget says. Subsets
/// are numbered in binary, the first item being the lowest bit. The answer is the number of the heaviest fitting one,
/// the earliest if equal, its weight, how many were looked at, and how far off it is at most: 0 if all were, else what
/// all items that fit alone weigh more; no choice there is outweighs it by more (`extracted` of `definition`).
/// Refusals: the reader's; 40 for a REDEFINES or DEPENDING ON, a dropped root's own aside; 58 for too many items, or
/// another number of weights than of items; 59 for a weight outside its range; 60 for a budget of 0. Work memory is
/// zero after every call. The contract rules out a program that answers with the latest of equals, and one that looks
/// at a subset too many.
pub fn extract(
    text: &[u8],
    weights: &[u32],
    limit: usize,
    budget: usize,
    work: &mut [u32],
) -> Result<Extract, Refusal>
    ensures { left result [] work.new
        ≡ extract_call text.now weights.now limit budget work.old }
{
    let terms = Terms {
        weights,
        limit,
        budget,
    };
    asking::answer(Form::FreeText, ExtractBy { terms }, text, work, &mut [])
}

/// One key for a family of records: the offset and width of the column of that name in a set of copybooks, free text
/// each, whose bytes stand one after the other in `texts`; `lengths` says how many each has. Each copybook has exactly
/// one entry of the name at the top of its folded listing, case aside, an absent name being FILLER; it is no group and
/// has neither OCCURS nor REDEFINES, no DEPENDING ON stands before it in the listing, at any depth, and all agree in
/// offset, width, kind and kind details, an edited one in its mask. Refusals: 56, before any reading, for a set of too
/// few or too many, or whose lengths, added up, are not those bytes; then the reader's of the first copybook that is
/// refused, its position counted in that copybook; then 57 where there is no such key. 56 and 57 are at 0. The name is
/// only compared. Work memory is zero after every call. The contract rules out a program that takes the last of two
/// entries of the name, and one that adds the lengths up modulo 2^64.
pub fn set_key(
    texts: &[u8],
    lengths: &[u64],
    name: &[u8],
    work: &mut [u32],
) -> Result<KeyColumn, Refusal>
    ensures { left result [] work.new
        ≡ key_call texts.now lengths.now name.now work.old }
{
    family::set_key(texts, lengths, name, work)
}

/// Kind, its details and width of one picture with a usage and a sign. Refusals: a picture's. The contract rules out a
/// program that counts `$$$9` as four digits, and one that gives a P a byte under some usage.
#[tactic(auto, unfolding(definition::specs::Calls::picture_answer, definition::specs::Basic::and_then))]
pub fn parse_pic(pic: &[u8], usage: Usage, sign: Option<SignKind>) -> Result<Pictured, Refusal>
    ensures { result ≡ picture_answer usage sign pic.now }
{
    text::text_checks(pic)?;
    picture::picture_at(pic, 0, usage, sign)
}

/// Writes the mask of a picture that is edited under the usage, and answers its length; 0 of any other picture.
/// Refusals: a picture's; then 31, with the length of the mask, if it is longer than the output. A refusal changes no
/// byte of the output, and bytes past the mask keep their values. The contract rules out a program that writes before
/// it knows that the mask has room, and one that writes S or V, or leaves P out.
pub fn mask(pic: &[u8], usage: Usage, out: &mut [u8]) -> Result<usize, Refusal>
    ensures { left result out.new [] ≡ mask_call usage pic.now out.old }
{
    mask::picture_mask(pic, usage, out)
}

/// Whether a record of `len` bytes is long enough for a layout of `record_len` bytes: 42, at 0, where it is shorter and
/// the record is not variable.
/// The contract rules out a program that refuses a record of just the length, and one that checks a variable record.
pub fn check_record_len(record_len: usize, variable: bool, len: usize) -> Result<(), Refusal>
    ensures { result ≡ record_check record_len variable len }
{
    limits::check_record_len(record_len, variable, len)
}
