//! Names in a text: the part that a span fills, whether two names are the same, case aside or case included, and a
//! name's fingerprint; an absent name means FILLER.

ghost use Rattle.std.specs.Prelude.{◌≡◌, ◌+◌, ◌<◌, if◌then◌else◌};
ghost use Rattle.definition.specs.Basic.{is_given, part, uppers};
ghost use Rattle.definition.specs.Fold.{name_of, same_name, same_spelling};
ghost use Rattle.text.specs.Fingerprints.{byte_back, fingerprint_of, name_fingerprint};

use definition::Span;

/// The part of the text that a span fills, cut off at the text's end.
pub fn part_within(text: &[u8], w: Span) -> &[u8]
    ensures { result.now ≡ part text.now w }
{
    let rest = &text[usize::from(w.start).min(text.len())..];
    &rest[..usize::from(w.len).min(rest.len())]
}

/// The part of the text that a span fills, or this word where it is absent.
pub fn part_or<'a>(text: &'a [u8], w: Span, filler: &'a [u8]) -> &'a [u8]
    ensures { result.now ≡ (if is_given w then part text.now w else filler.now) }
{
    if w.is_given() {
        part_within(text, w)
    } else {
        filler
    }
}

/// The name that a span fills; an absent one means FILLER.
pub fn name_of(text: &[u8], w: Span) -> &[u8]
    ensures { result.now ≡ name_of text.now w }
{
    part_or(text, w, b"FILLER")
}

/// Whether two names are the same, case aside; an absent one means FILLER.
pub fn same_names(text: &[u8], a: Span, b: Span) -> bool
    ensures { result ≡ same_name text.now a b }
{
    crate::same_name(name_of(text, a), name_of(text, b))
}

/// Whether two names are spelled the same; an absent one means FILLER.
pub fn same_spellings(text: &[u8], a: Span, b: Span) -> bool
    ensures { result ≡ same_spelling text.now a b }
{
    crate::same_spelling(name_of(text, a), name_of(text, b))
}

// ---------------------------------------------------------------- fingerprints

/// Five bits of the byte k places before a word's last, in upper case, or 0 where there is none.
// A letter's capital has the same five, so that nothing is left to do for it when this is compiled.
fn byte_back(w: &[u8], k: usize) -> u8
    ensures { result ≡ byte_back (uppers w.now) k }
{
    if w.len() <= k {
        return 0;
    }
    crate::upper(w[w.len() - 1 - k]) % 32
}

/// The fingerprint of a word, case aside.
#[tactic(auto, unfolding(crate::specs::Fingerprints::fingerprint_of))]
fn word_fingerprint(w: &[u8]) -> u32
    ensures { result ≡ fingerprint_of (uppers w.now) }
{
    u32::from_be_bytes([
        (w.len() % 256) as u8,
        byte_back(w, 2),
        byte_back(w, 1),
        byte_back(w, 0),
    ])
}

/// The fingerprint of a name; an absent one means FILLER.
pub fn fingerprint_of(text: &[u8], w: Span) -> u32
    ensures { result ≡ name_fingerprint text.now w }
{
    word_fingerprint(name_of(text, w))
}
