//! What an item holds, its children aside, by the usage that holds for it: what its picture says, or a float; and what
//! its place and its width are a multiple of.

ghost use Rattle.std.specs.Prelude.{◌≡◌, ◌+◌, ◌≤◌, ◌<◌, None, if◌then◌else◌};
ghost use Rattle.definition.specs.declared.TheConstants.{LARGEST};
ghost use Rattle.definition.specs.Basic.{Ok, fewest as fewest_of};
ghost use Rattle.definition.specs.Statement.{usage_of as usage_of_named};
ghost use Rattle.definition.specs.declared.FieldKind.{FieldKind};
ghost use Rattle.definition.specs.Picture.{pictured};
ghost use Rattle.definition.specs.Storage.{by_picture, float as float_of, elementary as elementary_of};
ghost use Rattle.layout.specs.Bare.{place_multiple as place_multiple_of, width_multiple as width_multiple_of};

use definition::{FieldKind, ItemUsage, NamedUsage, Pictured, Refusal, SignKind, Statement, Usage};
use text::names;

/// Kind and width by the picture: 21 where there is none, and the picture's own refusals.
#[tactic(auto, unfolding(definition::specs::Basic::and_then))]
fn by_picture(text: &[u8], s: Statement, usage: Usage) -> Result<Pictured, Refusal>
    ensures { result ≡ by_picture text.now s usage }
{
    if !s.clauses.picture.is_given() {
        return Err(Refusal::NoPicture {
            position: usize::from(s.at),
        });
    }
    let picture = names::part_within(text, s.clauses.picture);
    picture::picture_at(
        picture,
        usize::from(s.at),
        usage,
        s.clauses.sign.map(SignKind::from),
    )
}

/// A float of so many bytes: 52 where there is a picture.
#[tactic(auto, unfolding(definition::specs::Basic::and_then))]
fn float(s: Statement, width: u8) -> Result<Pictured, Refusal>
    requires { width < 32 }
    ensures { result ≡ float_of s width }
{
    if s.clauses.picture.is_given() {
        return Err(Refusal::FloatWithPicture {
            position: usize::from(s.at),
        });
    }
    Ok(Pictured {
        kind: FieldKind::Float { bits: 8 * width },
        digits: None,
        width: usize::from(width),
    })
}

/// The usage that is named, or DISPLAY where none is.
// For `map_or` the closure would need a contract of its own.
fn usage_of(named: Option<NamedUsage>) -> ItemUsage
    ensures { result ≡ usage_of_named named }
{
    match named {
        Some(n) => n.usage,
        None => ItemUsage::Picture(Usage::Display),
    }
}

/// Kind and width of an item without children.
pub fn elementary(text: &[u8], s: Statement) -> Result<Pictured, Refusal>
    ensures { result ≡ elementary_of text.now s }
{
    match usage_of(s.usage) {
        ItemUsage::Picture(u) => by_picture(text, s, u),
        ItemUsage::Comp1 => float(s, 4),
        ItemUsage::Comp2 => float(s, 8),
    }
}

/// What an item holds, its children aside: a group has no bytes but theirs.
pub fn content(text: &[u8], s: Statement, is_group: bool) -> Result<Pictured, Refusal>
    ensures { result ≡ (if is_group then Ok (pictured FieldKind.Group None 0) else elementary_of text.now s) }
{
    if is_group {
        return Ok(Pictured {
            kind: FieldKind::Group,
            digits: None,
            width: 0,
        });
    }
    elementary(text, s)
}

// ---------------------------------------------------------------- alignment

/// What the place of an item in the record is a multiple of: its width where SYNC aligns it, else 1.
pub fn place_multiple(s: Statement, c: Pictured) -> usize
    ensures { result ≡ place_multiple_of s c }
{
    if s.clauses.sync && !s.clauses.redefines.is_given() && c.kind.is_alignable() {
        c.width
    } else {
        1
    }
}

/// What the width of an item is a multiple of: the largest alignment in its list where it has OCCURS and no DEPENDING ON,
/// else 1.
pub fn width_multiple(s: Statement, largest: usize) -> usize
    ensures { result ≡ width_multiple_of s largest }
{
    if s.clauses.occurs.is_some() && !s.clauses.depending.is_given() {
        largest
    } else {
        1
    }
}

/// The fewest bytes that bring a number to a multiple.
pub fn fewest(multiple: usize, n: usize) -> usize
    requires { (0 < multiple) × (multiple ≤ LARGEST) × (n ≤ LARGEST + LARGEST) }
    ensures { result ≡ fewest_of multiple n }
{
    n.next_multiple_of(multiple) - n
}
