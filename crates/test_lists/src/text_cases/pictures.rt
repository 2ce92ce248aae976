//! Answers to pictures: picture/pictures.txt has the Rust's, but of a picture with P those of tools/readings;
//! picture/document.txt and limits.txt have those of the rules that the Rust cannot give. A case of the first: usage,
//! sign, picture, and the Rust's answer, which ends in the mask where the picture is edited under DISPLAY. A case of
//! the second: usage, sign, picture, length of the output; the answer of `parse_pic`, with a refusal's position; and
//! the answer of `mask`, its length and bytes, or a refusal's number, position and needed length. Usage and sign are
//! numbered as in tools/oracle.

ghost use Rattle.std.specs.Prelude.{◌≡◌, IsOk, IsTrue};
ghost use Rattle.replay.specs.Bare.{bare_ahead};
ghost use Rattle.replay.specs.Words.{is_end};

use definition::{FieldKind, Pictured, Refusal, SignKind, Usage};
use replay::bare::BareCase;
use replay::case::{Differs, only};
use replay::lent::{TEXT_ROOM, is_untouched, patterned};
use rows::kinds;
use rows::kinds::Coded;

/// The most bytes that a mask is given room for.
const ROOM: usize = 300;

/// Whose answers a list has.
#[derive(Clone, Copy)]
pub enum Source {
    /// The Rust's, but of a picture with P those of tools/readings.
    Rust,
    /// Those that the Rust cannot give.
    Document,
}

/// A picture, and the usage and the sign that it is read with.
#[derive(Clone, Copy)]
struct Asked<'a> {
    picture: &'a [u8],
    usage: Usage,
    sign: Option<SignKind>,
}

// ---------------------------------------------------------------- one answer

/// Goes on where the next words are the kind and its details.
fn kind(case: &mut BareCase, kind: FieldKind) -> Result<(), Differs>
    ensures { case.new.list ≡ case.old.list }
{
    case.bytes(&[kinds::kind_byte(kind)])?;
    match kind {
        FieldKind::Text => Ok(()),
        FieldKind::Int { signed, sign } => case.bytes(&[signed.code(), sign.code()]),
        FieldKind::Binary { signed } => case.bytes(&[signed.code()]),
        FieldKind::Decimal {
            precision,
            scale,
            repr,
            sign,
        } => case.bytes(&[precision, scale, repr.code(), sign.code()]),
        FieldKind::Edited {
            precision,
            scale,
            signed,
        } => case.bytes(&[precision, scale, signed.code()]),
        FieldKind::Group | FieldKind::Float { .. } => Err(Differs),
    }
}

/// Goes on where the next words are the answer of `parse_pic` to a picture that it accepts.
fn accepted(case: &mut BareCase, a: Pictured) -> Result<(), Differs>
    ensures { case.new.list ≡ case.old.list }
{
    case.numbers(&[1, a.width as u64])?;
    kind(case, a.kind)
}

// ---------------------------------------------------------------- a case of the Rust's list

/// Goes on where the mask is the one of the next words, if the picture is edited under DISPLAY, and has length 0 if
/// not.
fn rust_mask(case: &mut BareCase, asked: Asked, kind: FieldKind) -> Result<(), Differs>
    ensures { case.new.list ≡ case.old.list }
{
    let mut out = patterned::<ROOM>();
    match (copybook::mask(asked.picture, asked.usage, &mut out), kind) {
        (Ok(n), FieldKind::Edited { .. }) => case.written(&out, n),
        (Ok(n), _) => only(n == 0 && is_untouched(&out, 0)),
        (Err(_), _) => Err(Differs),
    }
}

/// Goes on where the mask has the same refusal, and the output is untouched.
fn mask_refused(asked: Asked, refusal: Refusal) -> Result<(), Differs> {
    let mut out = patterned::<ROOM>();
    match copybook::mask(asked.picture, asked.usage, &mut out) {
        Ok(_) => Err(Differs),
        Err(r) => only(r == refusal && is_untouched(&out, 0)),
    }
}

/// Goes on where the answers of `parse_pic` and `mask` are those of the next words.
fn rust_answer(case: &mut BareCase, asked: Asked) -> Result<(), Differs>
    ensures { case.new.list ≡ case.old.list }
{
    match copybook::parse_pic(asked.picture, asked.usage, asked.sign) {
        Ok(a) => {
            accepted(case, a)?;
            rust_mask(case, asked, a.kind)
        }
        Err(r) => {
            case.numbers(&[0, u64::from(r.number())])?;
            only(r.position() == 0 && r.needed() == 0)?;
            mask_refused(asked, r)
        }
    }
}

// ---------------------------------------------------------------- a case of the document's list

/// Goes on where the answer of `parse_pic` is that of the next words.
fn document_picture(case: &mut BareCase, asked: Asked) -> Result<(), Differs>
    ensures { case.new.list ≡ case.old.list }
{
    match copybook::parse_pic(asked.picture, asked.usage, asked.sign) {
        Ok(a) => accepted(case, a),
        Err(r) => case.refusal(r),
    }
}

/// Goes on where the answer of `mask`, with so much room, is that of the next words.
fn document_mask(case: &mut BareCase, asked: Asked, room: usize) -> Result<(), Differs>
    ensures { case.new.list ≡ case.old.list }
{
    if room > ROOM {
        return Err(Differs);
    }
    let mut out = patterned::<ROOM>();
    let answer = copybook::mask(asked.picture, asked.usage, &mut out[..room]);
    case.writing(answer, &out)
}

/// Goes on where the next words are the room for the mask, and the answers of `parse_pic` and `mask`.
fn document_answer(case: &mut BareCase, asked: Asked) -> Result<(), Differs>
    ensures { case.new.list ≡ case.old.list }
{
    let room = case.take()?;
    document_picture(case, asked)?;
    document_mask(case, asked, room)
}

// ---------------------------------------------------------------- a case

/// Goes on where the next words ask and answer, in a list of that source, with so many X before the picture.
pub fn replay(case: &mut BareCase, source: Source, before: usize) -> Result<(), Differs>
    ensures list { case.new.list ≡ case.old.list }
    ensures ended { IsOk result → IsTrue (is_end (bare_ahead case.new.list.now case.new.at)) }
{
    let mut room = [b'X'; TEXT_ROOM];
    let usage = Usage::at(case.take()?);
    let sign = kinds::clause_at(case.take()?);
    let picture = case.input(&mut room, before)?;
    let asked = Asked {
        picture,
        usage,
        sign,
    };
    match source {
        Source::Rust => rust_answer(case, asked)?,
        Source::Document => document_answer(case, asked)?,
    }
    case.end()
}
