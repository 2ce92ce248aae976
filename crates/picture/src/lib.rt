//! Pictures: kind, digits and width of a picture with a usage and a sign, `parse_pic` of the Rust; in modules its symbols and
//! their count, and the mask of an edited one. Leans on `text`.
#![tactic(auto)]

ghost use Rattle.std.specs.Prelude.{ℕ, ◌+◌, ◌≤◌, ◌≡◌, ◌&&◌, IfOk};
ghost use Rattle.definition.specs.Picture.{is_display, resolve_sign, is_embedded, sign_bytes};
ghost use Rattle.definition.specs.Picture.{comp_width, byte_width, storage_width, display as display_of};
ghost use Rattle.definition.specs.Picture.{numeric as numeric_of, picture as picture_in};
ghost use Rattle.picture.specs.Shape.{Small};
ghost use Rattle.picture.specs.Kinds.{shape_of, masked_by, mixed_by, long_by, checked, shaped, kinded_by, Fit};

use crate::symbols::{Half, Tallies};
use definition::{
    Digits, FieldKind, LONGEST_MASK, MOST_DIGITS, NumRepr, Pictured, Refusal, SignKind, Usage,
};

pub mod mask;
pub mod symbols;

// ---------------------------------------------------------------- the shape, and the last checks

/// Whether the usage is DISPLAY.
fn is_display(usage: Usage) -> bool
    ensures { result ≡ is_display usage }
{
    matches!(usage, Usage::Display)
}

/// What kind and width depend on.
#[derive(Clone, Copy)]
pub struct PicShape {
    /// How many X and A there are.
    pub text: usize,
    /// How many digits, with P.
    pub digits: usize,
    /// How many digits without P.
    pub stored: usize,
    /// How many digits of the fraction, with P.
    pub scale: usize,
    /// Whether there is a sign symbol.
    pub signed: bool,
    /// Whether there is an editing symbol.
    pub edited: bool,
    /// The length of the mask, with P.
    pub mask: usize,
    /// The length of the mask without P.
    pub width: usize,
}

impl PicShape {
    /// The shape by the tallies: each of `$`, `+`, `-` adds its count less one to the digits; P is a digit of the
    /// fraction that holds no byte.
    fn of(t: Tallies) -> PicShape
        requires { Small t }
        ensures { result ≡ shape_of t }
    {
        let fraction = t.digits - t.whole;
        let scale = fraction + t.scaled;
        let floating = t.dollars.saturating_sub(1)
            + t.pluses.saturating_sub(1)
            + t.minuses.saturating_sub(1);
        let stored = t.whole + floating + fraction;
        let mask = t.symbols - t.hidden;
        PicShape {
            text: t.text as usize,
            digits: (stored + t.scaled) as usize,
            stored: stored as usize,
            scale: scale as usize,
            signed: 0 < t.signs,
            edited: 0 < t.edits,
            mask: mask as usize,
            width: (mask - t.scaled) as usize,
        }
    }

    /// Whether an item is edited: under DISPLAY alone.
    pub fn is_masked(self, usage: Usage) -> bool
        ensures { result ≡ masked_by usage self }
    {
        self.edited && is_display(usage)
    }

    /// Whether text is mixed with a digit or editing.
    fn is_mixed(self) -> bool
        ensures { result ≡ mixed_by self }
    {
        0 < self.text && (0 < self.digits || self.edited)
    }

    /// Whether a picture that is no text has too many digits, P included, or an edited DISPLAY one too long a mask.
    fn is_long(self, usage: Usage) -> bool
        ensures { result ≡ long_by usage self }
    {
        self.text == 0
            && (MOST_DIGITS < self.digits || self.is_masked(usage) && LONGEST_MASK < self.mask)
    }

    /// The last checks, in order: 25 a byte that is no symbol, 26 text mixed with a digit or editing, 27 too long.
    #[tactic(auto, using(crate::proofs::Shapes::check_steps))]
    fn check(self, half: Half, usage: Usage, at: usize) -> Result<(), Refusal>
        ensures { result ≡ checked at usage self half }
    {
        if !half.is_legal() {
            return Err(Refusal::BadSymbol { position: at });
        }
        if self.is_mixed() {
            return Err(Refusal::MixedPicture { position: at });
        }
        if self.is_long(usage) {
            return Err(Refusal::TooLong { position: at });
        }
        Ok(())
    }

    /// The bytes that a number takes: P holds none.
    fn storage_width(self, usage: Usage, sign: SignKind) -> usize
        requires { self.stored ≤ MOST_DIGITS }
        ensures { result ≡ storage_width usage sign self.stored }
    {
        match usage {
            Usage::Display => self.stored + sign_bytes(sign),
            Usage::Comp3 => byte_width(self.stored),
            Usage::Comp => comp_width(self.stored),
        }
    }

    /// The kind of a number in DISPLAY.
    fn display(self, sign: SignKind) -> FieldKind
        requires { (self.digits ≤ MOST_DIGITS) × (self.scale ≤ MOST_DIGITS) }
        ensures { result ≡ display_of self.digits self.scale self.signed sign }
    {
        let zoned = is_zoned(self.signed, sign);
        if self.scale == 0 && !zoned {
            return FieldKind::Int {
                signed: self.signed,
                sign,
            };
        }
        FieldKind::Decimal {
            precision: self.digits as u8,
            scale: self.scale as u8,
            repr: if zoned {
                NumRepr::Zoned
            } else {
                NumRepr::Display
            },
            sign,
        }
    }

    /// The kind of a number.
    fn numeric(self, usage: Usage, sign: SignKind) -> FieldKind
        requires { (self.digits ≤ MOST_DIGITS) × (self.scale ≤ MOST_DIGITS) }
        ensures { result ≡ numeric_of usage self.digits self.scale self.signed sign }
    {
        match usage {
            Usage::Display => self.display(sign),
            Usage::Comp3 => FieldKind::Decimal {
                precision: self.digits as u8,
                scale: self.scale as u8,
                repr: NumRepr::Comp3,
                sign: SignKind::Embedded,
            },
            Usage::Comp => FieldKind::Binary {
                signed: self.signed,
            },
        }
    }

    /// Kind, digits and width of a shape that passed the checks.
    fn pictured(self, usage: Usage, clause: Option<SignKind>) -> Pictured
        requires { Fit usage self }
        ensures { result ≡ kinded_by usage clause self }
    {
        if 0 < self.text {
            return Pictured {
                kind: FieldKind::Text,
                digits: None,
                width: self.text,
            };
        }
        let digits = Digits {
            precision: self.digits as u8,
            scale: self.scale as u8,
            signed: self.signed,
        };
        if self.is_masked(usage) {
            let precision = digits.precision.max(1);
            return Pictured {
                kind: FieldKind::Edited {
                    precision,
                    scale: digits.scale,
                    signed: digits.signed,
                },
                digits: Some(Digits {
                    precision,
                    ..digits
                }),
                width: self.width,
            };
        }
        let sign = resolve_sign(self.signed, clause);
        Pictured {
            kind: self.numeric(usage, sign),
            digits: Some(digits),
            width: self.storage_width(usage, sign),
        }
    }
}

/// The shape of a picture, or its first refusal of 22 to 27, at `at`.
// Inlined, as `repeat_at`: what they answer needn't be stored then. Not so `count_symbols`: where its loop stands
// twice, what it needs is called.
#[inline(always)]
#[tactic(auto, using(crate::proofs::Shapes::shape_steps))]
pub fn read_shape(picture: &[u8], at: usize, usage: Usage) -> Result<PicShape, Refusal>
    ensures same { result ≡ shaped at usage picture.now }
    ensures fits { IfOk result (Fit usage) }
{
    let (tallies, half) = symbols::count_symbols(symbols::trim(picture), at)?;
    let shape = PicShape::of(tallies);
    shape.check(half, usage, at)?;
    Ok(shape)
}

// ---------------------------------------------------------------- kind and width

/// The bytes of a COMP item of so many digits.
fn comp_width(digits: usize) -> usize
    ensures { result ≡ comp_width digits }
{
    match digits {
        0..=4 => 2,
        5..=9 => 4,
        _ => 8,
    }
}

/// The bytes of a COMP-3 item of so many digits.
fn byte_width(digits: usize) -> usize
    ensures { result ≡ byte_width digits }
{
    digits / 2 + 1
}

/// The sign that an item has, by its sign symbols and its SIGN clause.
fn resolve_sign(signed: bool, clause: Option<SignKind>) -> SignKind
    ensures { result ≡ resolve_sign signed clause }
{
    if signed {
        clause.unwrap_or(SignKind::Embedded)
    } else {
        SignKind::Unsigned
    }
}

/// The bytes that a sign takes of its own.
fn sign_bytes(sign: SignKind) -> usize
    ensures { result ≡ sign_bytes sign }
{
    match sign {
        SignKind::Unsigned | SignKind::Embedded => 0,
        SignKind::LeadingSeparate | SignKind::TrailingSeparate => 1,
    }
}

/// Whether the sign is overpunched on a digit.
fn is_zoned(signed: bool, sign: SignKind) -> bool
    ensures { result ≡ (signed && is_embedded sign) }
{
    signed && matches!(sign, SignKind::Embedded)
}

/// Kind and width of a picture whose text was checked; a refusal, 22 to 27, carries the position `at`.
#[tactic(auto, using(crate::proofs::Shapes::picture_steps))]
pub fn picture_at(
    picture: &[u8],
    at: usize,
    usage: Usage,
    sign: Option<SignKind>,
) -> Result<Pictured, Refusal>
    ensures { result ≡ picture_in at usage sign picture.now }
{
    let shape = read_shape(picture, at, usage)?;
    Ok(shape.pictured(usage, sign))
}
