//! What a case lends a call, and the memory that it is lent.

ghost use Rattle.std.specs.Prelude.{ℕ, ◌≡◌, ◌<◌, ◌%◌, ◌^◌, ◌↔◌, IsOk, IfOk, IsTrue, All};
ghost use Rattle.std.specs.Prelude.{length, get_or, drop, replicate};
ghost use Rattle.std.specs.Fn.{FnOnceReturnsAtMut};
ghost use Rattle.replay.specs.Lent.{untouched};

use crate::case::{Differs, only};
use definition::MOST_BYTES;

/// What a case lends its call: work memory, and so many bytes before its text.
#[derive(Drop)]
pub struct Lent<'a> {
    /// The work memory.
    pub work: &'a mut [u32],
    /// How many bytes stand before the text.
    pub before: usize,
}

/// The room for the text of a case: a byte more than a text may have.
pub const TEXT_ROOM: usize = MOST_BYTES + 1;

/// What stands in each place of work memory before a call.
const FILL: u32 = u32::MAX;

/// Fills work memory with what stands there before a call: `u32::MAX` in each place.
pub fn fill(work: &mut [u32])
    ensures { work.new ≡ replicate (length work.old) 4294967295 }
{
    work.fill(FILL);
}

/// Whether work memory is zero.
pub fn is_cleared(work: &[u32]) -> bool
    ensures { IsTrue result ↔ All (λ n. n ≡ 0) work.now }
{
    work.iter().all(|n| *n == 0)
}

/// What stands at a place of the output before a call.
fn pattern(i: usize) -> u8
    ensures { result ≡ i % 251 }
{
    (i % 251) as u8
}

/// Writes the pattern to the whole output.
pub fn write_pattern(out: &mut [u8])
    ensures length { length out.new ≡ length out.old }
    ensures pattern { (k : ℕ) → k < length out.old → get_or out.new k 0 ≡ k % 251 }
{
    for (i, b) in out.iter_mut().enumerate() {
        *b = pattern(i);
    }
}

/// An output of a size, as it is before a call: it holds the pattern.
pub fn patterned<const N: usize>() -> [u8; N]
    requires { N < 2 ^ 32 }
    ensures { (k : ℕ) → k < N → get_or result k 0 ≡ k % 251 }
{
    let mut out = [0; N];
    write_pattern(&mut out);
    out
}

/// Whether the output holds the pattern from a place on.
pub fn is_untouched(out: &[u8], from: usize) -> bool
    ensures { result ≡ untouched from (drop from out.now) }
{
    for i in from..out.len() {
        if out[i] != pattern(i) {
            return false;
        }
    }
    true
}

/// Makes a call over work memory that is not zero: what it answers, if work memory is zero then.
pub fn replay_call<T: Drop, F: FnOnce(&mut [u32]) -> T>(
    work: &mut [u32],
    call: F,
) -> Result<T, Differs>
    requires { F.IsAlwaysCallable call }
    ensures zero { IsOk result ↔ All (λ n. n ≡ 0) work.new }
    ensures called { (r : _) × FnOnceReturnsAtMut F.FnOnce call (replicate (length work.old) 4294967295) r work.new
        × IfOk result (λ answer. answer ≡ r) }
{
    fill(work);
    let answer = call(work);
    only(is_cleared(work))?;
    Ok(answer)
}
