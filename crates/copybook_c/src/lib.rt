//! The public entries for C: `include/copybook.h` declares them. A slice is a pointer and a length. Each call returns
//! 0, the number of its refusal, or 255 for a usage or a sign that is none; all but `copybook_check_record` write the
//! other numbers of their answers to a lent slice, as `numbers` says.
#![tactic(auto)]

ghost use Rattle.std.specs.Prelude.{◌≡◌, ◌||◌, true, false, []};
ghost use Rattle.definition.specs.declared.Form.{Form};
ghost use Rattle.definition.specs.Calls.{layout_call, details_call, reasons_call, owner_call, extract_call};
ghost use Rattle.definition.specs.Calls.{left, words_call, picture_answer, mask_call, record_check};
ghost use Rattle.definition.specs.Key.{key_call};
ghost use Rattle.rows.specs.Kinds.{sign_at};
ghost use Rattle.rows.specs.Usages.{usage_at, clause_at};
ghost use Rattle.copybook_c.specs.Numbers.{no_usage, no_sign, flagged};
ghost use Rattle.copybook_c.specs.Numbers.{returned, writing_numbers, picture_numbers, owner_numbers};
ghost use Rattle.copybook_c.specs.Numbers.{extract_numbers, key_numbers, IsHandedOn};

pub mod numbers;

/// The layout listing of a copybook, as `copybook::layout_listing` says. To `answer`, 2 numbers: the bytes written, and
/// 0; or position and needed length.
/// The contract rules out a call that writes to an `answer` of one number, and one that puts the needed length before
/// the position.
#[unsafe(no_mangle)]
pub extern "C" fn copybook_layout(
    text: &[u8],
    work: &mut [u32],
    out: &mut [u8],
    answer: &mut [u64],
) -> u32
    ensures { IsHandedOn writing_numbers (layout_call Form.FreeText text.now out.old work.old) answer.old result
        answer.new out.new work.new }
{
    numbers::hand_on(copybook::layout_listing(text, work, out), answer)
}

/// The details of the listing's entries, as `copybook::layout_details` says. To `answer`, 2 numbers, as
/// `copybook_layout`.
/// The contract rules out the same two wrong calls as that of `copybook_layout`.
#[unsafe(no_mangle)]
pub extern "C" fn copybook_details(
    text: &[u8],
    work: &mut [u32],
    out: &mut [u8],
    answer: &mut [u64],
) -> u32
    ensures { IsHandedOn writing_numbers (details_call Form.FreeText text.now out.old work.old) answer.old result
        answer.new out.new work.new }
{
    numbers::hand_on(copybook::layout_details(text, work, out), answer)
}

/// The reasons of an entry, by its number in the listing, as `copybook::entry_reasons` says. To `answer`, 2 numbers, as
/// `copybook_layout`.
/// The contract rules out the same two wrong calls as that of `copybook_layout`.
#[unsafe(no_mangle)]
pub extern "C" fn copybook_reasons(
    text: &[u8],
    number: u64,
    work: &mut [u32],
    out: &mut [u8],
    answer: &mut [u64],
) -> u32
    ensures { IsHandedOn writing_numbers (reasons_call Form.FreeText text.now number out.old work.old) answer.old
        result answer.new out.new work.new }
{
    numbers::hand_on(
        copybook::entry_reasons(text, number as usize, work, out),
        answer,
    )
}

/// The layout listing of cards, as `copybook::layout_cards` says. To `answer`, 2 numbers, as `copybook_layout`.
/// The contract rules out the same two wrong calls as that of `copybook_layout`.
#[unsafe(no_mangle)]
pub extern "C" fn copybook_layout_cards(
    cards: &[u8],
    work: &mut [u32],
    out: &mut [u8],
    answer: &mut [u64],
) -> u32
    ensures { IsHandedOn writing_numbers (layout_call Form.Cards cards.now out.old work.old) answer.old result
        answer.new out.new work.new }
{
    numbers::hand_on(copybook::layout_cards(cards, work, out), answer)
}

/// The details of the entries of cards, as `copybook::layout_details_cards` says. To `answer`, 2 numbers, as
/// `copybook_layout`.
/// The contract rules out the same two wrong calls as that of `copybook_layout`.
#[unsafe(no_mangle)]
pub extern "C" fn copybook_details_cards(
    cards: &[u8],
    work: &mut [u32],
    out: &mut [u8],
    answer: &mut [u64],
) -> u32
    ensures { IsHandedOn writing_numbers (details_call Form.Cards cards.now out.old work.old) answer.old result
        answer.new out.new work.new }
{
    numbers::hand_on(copybook::layout_details_cards(cards, work, out), answer)
}

/// The reasons of an entry of cards, as `copybook::entry_reasons_cards` says. To `answer`, 2 numbers, as
/// `copybook_layout`.
/// The contract rules out the same two wrong calls as that of `copybook_layout`.
#[unsafe(no_mangle)]
pub extern "C" fn copybook_reasons_cards(
    cards: &[u8],
    number: u64,
    work: &mut [u32],
    out: &mut [u8],
    answer: &mut [u64],
) -> u32
    ensures { IsHandedOn writing_numbers (reasons_call Form.Cards cards.now number out.old work.old) answer.old result
        answer.new out.new work.new }
{
    numbers::hand_on(
        copybook::entry_reasons_cards(cards, number as usize, work, out),
        answer,
    )
}

/// The key of a set of copybooks, as `copybook::set_key` says. To `answer`, 2 numbers: its offset and its width; or
/// position and needed length.
/// The contract rules out a call that puts the width before the offset, and one that writes to an `answer` of one
/// number.
#[unsafe(no_mangle)]
pub extern "C" fn copybook_key(
    texts: &[u8],
    lengths: &[u64],
    name: &[u8],
    work: &mut [u32],
    answer: &mut [u64],
) -> u32
    ensures { IsHandedOn key_numbers (key_call texts.now lengths.now name.now work.old) answer.old result answer.new
        [] work.new }
{
    numbers::hand_on(copybook::set_key(texts, lengths, name, work), answer)
}

/// Kind, its details and width of a picture with a usage and a sign, as `copybook::parse_pic` says. To `answer`, 7
/// numbers: kind, width, signed, sign, precision, scale, storage, each 0 where the kind has none; or position, needed
/// length and zeros. 255, and nothing touched, for a usage above 2 or a sign above 4.
/// The contract rules out a call that takes sign 4 for leading separate, and one that takes usage 3 for COMP.
#[unsafe(no_mangle)]
pub extern "C" fn copybook_picture(pic: &[u8], usage: u8, sign: u8, answer: &mut [u64]) -> u32
    ensures unknown { no_usage usage || no_sign sign ≡ true → (result ≡ 255) × (answer.new ≡ answer.old) }
    ensures known { no_usage usage || no_sign sign ≡ false →
        IsHandedOn picture_numbers (left (picture_answer (usage_at usage) (clause_at sign_at sign) pic.now) [] [])
        answer.old result answer.new [] [] }
{
    let (Some(usage), Some(sign)) = (numbers::usage_of(usage), numbers::sign_of(sign)) else {
        return 255;
    };
    numbers::hand_on(copybook::parse_pic(pic, usage, sign), answer)
}

/// The mask of a picture that is edited under the usage, as `copybook::mask` says. To `answer`, 2 numbers, as
/// `copybook_layout`. 255, and nothing touched, for a usage above 2.
/// The contract rules out a call that says 0 bytes of a mask that it wrote, and one that takes usage 3 for COMP.
#[unsafe(no_mangle)]
pub extern "C" fn copybook_mask(pic: &[u8], usage: u8, out: &mut [u8], answer: &mut [u64]) -> u32
    ensures unknown { no_usage usage ≡ true → (result ≡ 255) × (answer.new ≡ answer.old) × (out.new ≡ out.old) }
    ensures known { no_usage usage ≡ false →
        IsHandedOn writing_numbers (mask_call (usage_at usage) pic.now out.old) answer.old result answer.new out.new [] }
{
    let Some(usage) = numbers::usage_of(usage) else {
        return 255;
    };
    numbers::hand_on(copybook::mask(pic, usage, out), answer)
}

/// The owner of a byte of the record, as `copybook::byte_owner` says. To `answer`, 4 numbers: 0, the entry's number,
/// the piece's first byte and the place inside it; or 1 for slack, the number of the entry it precedes, or of the group
/// at whose end it stands, and zeros; or position, needed length and zeros. The contract rules out a call that says
/// slack of a piece, and one that takes the piece's first byte for the place inside it.
#[unsafe(no_mangle)]
pub extern "C" fn copybook_owner(
    text: &[u8],
    position: u64,
    work: &mut [u32],
    answer: &mut [u64],
) -> u32
    ensures { IsHandedOn owner_numbers (owner_call Form.FreeText text.now position work.old) answer.old result
        answer.new [] work.new }
{
    numbers::hand_on(copybook::byte_owner(text, position as usize, work), answer)
}

/// The owner of a byte of the record that cards describe, as `copybook::byte_owner_cards` says. To `answer`, 4 numbers,
/// as `copybook_owner`.
/// The contract rules out the same two wrong calls as that of `copybook_owner`.
#[unsafe(no_mangle)]
pub extern "C" fn copybook_owner_cards(
    cards: &[u8],
    position: u64,
    work: &mut [u32],
    answer: &mut [u64],
) -> u32
    ensures { IsHandedOn owner_numbers (owner_call Form.Cards cards.now position work.old) answer.old result
        answer.new [] work.new }
{
    numbers::hand_on(
        copybook::byte_owner_cards(cards, position as usize, work),
        answer,
    )
}

/// The words of a copybook, statement by statement, as `copybook::words` says. To `answer`, 2 numbers, as
/// `copybook_layout`.
/// The contract rules out the same two wrong calls as that of `copybook_layout`.
#[unsafe(no_mangle)]
pub extern "C" fn copybook_words(
    text: &[u8],
    work: &mut [u32],
    out: &mut [u8],
    answer: &mut [u64],
) -> u32
    ensures { IsHandedOn writing_numbers (words_call Form.FreeText text.now out.old work.old) answer.old result
        answer.new out.new work.new }
{
    numbers::hand_on(copybook::words(text, work, out), answer)
}

/// The words of cards, as `copybook::words_cards` says. To `answer`, 2 numbers, as `copybook_layout`.
/// The contract rules out the same two wrong calls as that of `copybook_layout`.
#[unsafe(no_mangle)]
pub extern "C" fn copybook_words_cards(
    cards: &[u8],
    work: &mut [u32],
    out: &mut [u8],
    answer: &mut [u64],
) -> u32
    ensures { IsHandedOn writing_numbers (words_call Form.Cards cards.now out.old work.old) answer.old result
        answer.new out.new work.new }
{
    numbers::hand_on(copybook::words_cards(cards, work, out), answer)
}

/// An extract that fits, as `copybook::extract` says. To `answer`, 4 numbers: the subset's number, its weight, how many
/// were looked at, and how far off it is at most; or position, needed length and zeros.
/// The contract rules out a call that says how far off it is in place of the number looked at, and one that takes the
/// limit for the budget.
#[unsafe(no_mangle)]
pub extern "C" fn copybook_extract(
    text: &[u8],
    weights: &[u32],
    limit: u64,
    budget: u64,
    work: &mut [u32],
    answer: &mut [u64],
) -> u32
    ensures { IsHandedOn extract_numbers (extract_call text.now weights.now limit budget work.old) answer.old result
        answer.new [] work.new }
{
    numbers::hand_on(
        copybook::extract(text, weights, limit as usize, budget as usize, work),
        answer,
    )
}

/// Whether a record of `len` bytes is long enough for a layout of `record_len` bytes, as `copybook::check_record_len`
/// says: 0, or 42. `variable` is 0 for a fixed record, and any other number for a variable one.
/// The contract rules out a call that checks a variable record, and one that takes the two lengths for each other.
#[unsafe(no_mangle)]
pub extern "C" fn copybook_check_record(record_len: u64, variable: u8, len: u64) -> u32
    ensures { result ≡ returned (record_check record_len (flagged variable) len) }
{
    copybook::check_record_len(record_len as usize, variable != 0, len as usize)
        .err()
        .map_or(0, |r| r.number())
}
