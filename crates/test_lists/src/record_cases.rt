//! The cases of lists that ask of a record: owners, extracts and keys.

/// Answers of `extract`.
pub mod extracts;
/// Answers of `set_key`.
pub mod keys;
/// Answers of `byte_owner`.
pub mod owners;

ghost use Rattle.std.specs.Prelude.{◌≡◌};

use replay::bare::BareCase;
use replay::case::Differs;

/// Takes a number, and as many numbers behind it, which have to fit into the room.
fn take_all<'a, T: Copy + TryFrom<u64>>(
    case: &mut BareCase,
    room: &'a mut [T],
) -> Result<&'a [T], Differs>
where
    T::Error: Drop,
    ensures { case.new.list ≡ case.old.list }
{
    let count: usize = case.take()?;
    if count > room.len() {
        return Err(Differs);
    }
    for n in &mut room[..count] {
        *n = case.take()?;
    }
    Ok(&room[..count])
}
