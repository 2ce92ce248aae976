//! What is too large and what too short: refusal 29, where an entry ends unless one of its numbers is above the
//! largest, and refusal 42.

ghost use Rattle.std.specs.Prelude.{◌≡◌};
ghost use Rattle.definition.specs.Calls.{record_check};
ghost use Rattle.definition.specs.Fold.{times};
ghost use Rattle.layout.specs.Ends.{end_of};

use definition::{Entry, LARGEST, LARGEST_COUNT, Refusal};

/// How often an item stands: once without OCCURS.
pub fn times_of(occurs: Option<u64>) -> u64
    ensures { result ≡ times occurs }
{
    occurs.unwrap_or(1)
}

/// Where an entry ends: 29 where its count, offset, width, bytes or end are above `LARGEST`.
pub fn entry_end(e: Entry) -> Result<usize, Refusal>
    ensures { result ≡ end_of e }
{
    let refusal = Refusal::TooLarge { position: e.at };
    let n = times_of(e.occurs);
    if LARGEST_COUNT < n || LARGEST < e.offset || LARGEST < e.width {
        return Err(refusal);
    }
    let total = e.width * n as usize;
    let end = if e.depending.is_given() {
        e.offset
    } else {
        e.offset + total
    };
    if LARGEST < total || LARGEST < end {
        return Err(refusal);
    }
    Ok(end)
}

/// Whether a record of `len` bytes is long enough for a layout of `record_len` bytes: 42 where it is shorter and the
/// record is not variable.
pub fn check_record_len(record_len: usize, variable: bool, len: usize) -> Result<(), Refusal>
    ensures { result ≡ record_check record_len variable len }
{
    if !variable && len < record_len {
        return Err(Refusal::RecordTooShort);
    }
    Ok(())
}
