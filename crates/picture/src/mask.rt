//! The mask of an edited picture, written to a lent output.

ghost use Rattle.std.specs.Prelude.{◌+◌, ◌≤◌, ◌≡◌, [], length, replicate};
ghost use Rattle.definition.specs.Picture.{expand, mask as mask_of};
ghost use Rattle.definition.specs.Calls.{left, after_writing, mask_call};
ghost use Rattle.picture.specs.Masks.{hidden, MaskRoom, put, Wrote, mask_in};

use crate::symbols;
use definition::{Refusal, Usage};

/// Whether a symbol takes no byte of a mask. P takes one, though it holds no byte of the item.
fn is_hidden(b: u8) -> bool
    ensures { result ≡ hidden b }
{
    matches!(b, b'S' | b'V')
}

/// Writes the mask of a symbol that stands n times, from k on, and answers the place after it.
fn write_run(out: &mut [u8], k: usize, n: usize, b: u8) -> usize
    requires { k + length (mask_of (replicate n b)) ≤ length out.old }
    ensures { Wrote out.old k b n result out.new }
{
    if is_hidden(b) {
        return k;
    }
    out[k..k + n].fill(b);
    k + n
}

/// Writes the mask of a trimmed picture that was read already, and whose mask has room.
fn write_mask(picture: &[u8], out: &mut [u8])
    requires { MaskRoom 0 (expand 0 0 0 picture.now) (length out.old) }
    ensures { out.new ≡ put 0 (expand 0 0 0 picture.now) out.old }
{
    let mut k = 0;
    let mut left = picture;
    while let [first, rest @ ..] = left {
        // Never refused, though `repeat_at` answers a Result: this repeat was read with the picture.
        let Ok((n, skip)) = symbols::repeat_at(rest, 0) else {
            return;
        };
        k = write_run(out, k, n, text::upper(*first));
        left = &rest[skip..];
    }
}

/// Writes the mask of a picture whose text was checked, where it is edited under the usage, and answers its length; 0
/// of any other picture. Refusals are the picture's, then 31, with the length of the mask, if it is longer than the
/// output.
#[tactic(auto, using(crate::proofs::Masking::mask_steps), unfolding(definition::specs::Basic::and_then))]
pub fn mask_of(pic: &[u8], usage: Usage, out: &mut [u8]) -> Result<usize, Refusal>
    ensures { left result out.new [] ≡ after_writing (mask_in usage pic.now (length out.old)) out.old [] }
{
    let shape = crate::read_shape(pic, 0, usage)?;
    if !shape.is_masked(usage) {
        return Ok(0);
    }
    if out.len() < shape.mask {
        return Err(Refusal::OutputTooShort { needed: shape.mask });
    }
    write_mask(symbols::trim(pic), out);
    Ok(shape.mask)
}

/// The mask of any picture: its text is checked first.
#[tactic(auto, using(crate::proofs::Masking::checked_steps), unfolding(definition::specs::Basic::and_then))]
pub fn picture_mask(pic: &[u8], usage: Usage, out: &mut [u8]) -> Result<usize, Refusal>
    ensures { left result out.new [] ≡ mask_call usage pic.now out.old }
{
    text::text_checks(pic)?;
    mask_of(pic, usage, out)
}
