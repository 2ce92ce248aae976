//! How the programs read what they are given, how they cut a part out of a text, and how they read the bytes of a
//! layout listing back. A place past the end of a listing reads as 0, so nothing is asked of the bytes.
#![tactic(auto)]

/// How deep the entries of a listing stand.
pub mod depths;

ghost use Rattle.std.specs.Prelude.{◌≡◌, ◌≤◌, ◌<◌, ◌+◌, false, true, length, get_or, take, drop};
ghost use Rattle.std.specs.Prelude.{MatchOption, Some, IfOk};
ghost use Rattle.std.specs.Result.{result_ok};
ghost use Rattle.std.specs.Io.KnownBytes.{Consumes, IsAtEnd};
ghost use Rattle.std.specs.Iterator.{at_most};
ghost use Rattle.printing.specs.Read.{is_given, stands, four, part, head, kind, size, name, entry, first_entry, behind};

use definition::MOST_STATEMENTS;
use std::io::Read;
use std::{fmt, io};

// ---------------------------------------------------------------- what is read

/// Reads until the input ends or the buffer is full, and gives back what was read.
#[tactic(auto, using(crate::proofs::Filling::fill_steps))]
pub fn read_full<'a, R: Read>(input: &mut R, buf: &'a mut [u8]) -> io::Result<&'a [u8]>
    ensures within { IfOk result (λ s. length s.now ≤ length buf.old) }
    ensures read { IfOk result (λ s. Consumes (R.remaining input.old) (R.remaining input.new) s.now) }
    ensures end { IfOk result (λ s. length s.now < length buf.old → IsAtEnd (R.remaining input.new)) }
{
    let mut n = 0;
    while n < buf.len() {
        match input.read(&mut buf[n..])? {
            0 => break,
            more => n += more,
        }
    }
    Ok(&buf[..n])
}

// ---------------------------------------------------------------- parts of a text

/// A part of a text, as a listing has it.
#[derive(Clone, Copy)]
pub struct TextPart {
    /// Its first byte.
    pub start: usize,
    /// Its length in bytes; 0 means absent.
    pub len: usize,
}

impl TextPart {
    /// Whether there is one.
    fn is_given(self) -> bool
        ensures { result ≡ is_given self }
    {
        0 < self.len
    }
}

/// The bytes of a part of a text, if it is given and lies in the text.
pub fn text_part(text: &[u8], part: TextPart) -> Option<&[u8]>
    ensures { MatchOption result
        (stands text.now part ≡ false)
        (λ s. (stands text.now part ≡ true) × (s.now ≡ take part.len (drop part.start text.now))) }
{
    if !part.is_given() {
        return None;
    }
    text.get(part.start..)?.get(..part.len)
}

// ---------------------------------------------------------------- numbers and places

/// The most bytes that a listing has: 10, and 98 for each statement.
pub const MOST: usize = 10 + 98 * MOST_STATEMENTS;

/// The byte at a place of a listing.
pub fn byte_at(listing: &[u8], at: usize) -> u8
    ensures { result ≡ get_or listing.now at 0 }
{
    listing.get(at).copied().unwrap_or(0)
}

/// The bytes at a place of a listing, if as many are there.
fn chunk_at<const N: usize>(listing: &[u8], at: usize) -> Option<&[u8; N]>
    ensures { MatchOption result
        (length listing.now < at + N)
        (λ bytes. (at + N ≤ length listing.now) × (bytes.now ≡ take N (drop at listing.now))) }
{
    listing.get(at..)?.first_chunk()
}

/// The number in the four bytes at a place of a listing.
pub fn four_at(listing: &[u8], at: usize) -> u32
    ensures { result ≡ four listing.now at }
{
    chunk_at(listing, at).map_or(0, |bytes| u32::from_le_bytes(*bytes))
}

/// The start and the length in the eight bytes at a place of a listing.
#[tactic(auto, using(crate::proofs::Numbers::part_steps))]
pub fn part_at(listing: &[u8], at: usize) -> TextPart
    ensures { result ≡ part listing.now at }
{
    match chunk_at::<8>(listing, at) {
        Some(bytes) => TextPart {
            start: four_at(bytes, 0) as usize,
            len: four_at(bytes, 4) as usize,
        },
        None => TextPart { start: 0, len: 0 },
    }
}

// ---------------------------------------------------------------- the head

/// What a listing begins with.
#[derive(Clone, Copy)]
pub struct Head {
    /// The bytes of a record, the fewest where it varies.
    pub length: u32,
    /// Whether it varies, by a DEPENDING ON.
    pub varies: bool,
    /// How many entries stand at the top.
    pub top: u32,
}

impl Head {
    /// The head of a listing.
    pub fn read(listing: &[u8]) -> Head
        ensures { result ≡ head listing.now }
    {
        Head {
            length: four_at(listing, 1),
            varies: byte_at(listing, 5) != 0,
            top: four_at(listing, 6),
        }
    }
}

// ---------------------------------------------------------------- entries

/// The kind of an entry.
#[derive(Clone, Copy, PartialEq)]
pub enum Kind {
    /// Characters.
    Text,
    /// Digits, a byte each.
    Int,
    /// A number of COMP.
    Binary,
    /// A number with a point, an embedded sign, or of COMP-3.
    Decimal,
    /// A number as it is printed.
    Edited,
    /// Members.
    Group,
    /// A float.
    Float,
}

/// A byte stands for no kind.
#[derive(Clone, Copy)]
pub struct NoKind;

// The kind that a byte of a listing stands for.
impl TryFrom<u8> for Kind {
    type Error = NoKind;

    ghost try_from_gives = { λ b r. result_ok r ≡ kind b };

    fn try_from(b: u8) -> Result<Kind, NoKind> {
        match b {
            1 => Ok(Kind::Text),
            2 => Ok(Kind::Int),
            3 => Ok(Kind::Binary),
            4 => Ok(Kind::Decimal),
            5 => Ok(Kind::Edited),
            6 => Ok(Kind::Group),
            7 => Ok(Kind::Float),
            _ => Err(NoKind),
        }
    }
}

impl Kind {
    /// How many bytes an entry of this kind has, its kind's byte included.
    pub fn size(self) -> usize
        ensures { result ≡ size self }
    {
        match self {
            Kind::Text => 38,
            Kind::Int => 40,
            Kind::Binary => 39,
            Kind::Decimal => 42,
            Kind::Edited => 49,
            Kind::Group => 42,
            Kind::Float => 39,
        }
    }
}

impl fmt::Display for Kind {
    ghost output = { λ k. Some (name k) };

    fn fmt<W: fmt::Write>(&self, f: &mut fmt::Formatter<W>) -> fmt::Result {
        f.write_str(match self {
            Kind::Text => "text",
            Kind::Int => "int",
            Kind::Binary => "bin",
            Kind::Decimal => "dec",
            Kind::Edited => "edit",
            Kind::Group => "group",
            Kind::Float => "float",
        })
    }
}

/// An entry of a listing: names are places of the text, offset and width are bytes, and a group has so many members.
#[derive(Clone, Copy)]
pub struct ListedEntry {
    /// Its kind.
    pub kind: Kind,
    /// Its name.
    pub name: TextPart,
    /// Where it begins, from the start of the group around it.
    pub offset: u32,
    /// The bytes of one occurrence.
    pub width: u32,
    /// How often it occurs, if it is a table.
    pub occurs: Option<u32>,
    /// The name behind DEPENDING ON.
    pub depending: TextPart,
    /// The name behind REDEFINES.
    pub redefines: TextPart,
    /// How many members it has, if it is a group.
    pub members: Option<u32>,
}

impl ListedEntry {
    /// The entry of a kind that these bytes begin with.
    fn read(kind: Kind, bytes: &[u8]) -> ListedEntry
        ensures { result ≡ entry kind bytes.now }
    {
        ListedEntry {
            kind,
            name: part_at(bytes, 1),
            offset: four_at(bytes, 9),
            width: four_at(bytes, 13),
            occurs: (byte_at(bytes, 17) != 0).then_some(four_at(bytes, 18)),
            depending: part_at(bytes, 22),
            redefines: part_at(bytes, 30),
            members: (kind == Kind::Group).then_some(four_at(bytes, 38)),
        }
    }
}

/// The entries that these bytes of a listing hold, one after the other, up to the first that is not whole.
#[derive(Clone, Copy)]
pub struct Entries<'a> {
    /// The bytes that are still to be read.
    pub bytes: &'a [u8],
}

impl<'a> Entries<'a> {
    /// The entries of a listing, which stand behind its head.
    pub fn of(listing: &'a [u8]) -> Entries<'a>
        ensures { result.bytes.now ≡ drop 10 listing.now }
    {
        Entries {
            bytes: listing.get(10..).unwrap_or(&[]),
        }
    }
}

impl<'a> Iterator for Entries<'a> {
    type Item = ListedEntry;

    ghost next_gives = { λ s r t. (r ≡ first_entry s.bytes.now) × (t.bytes.now ≡ behind r s.bytes.now) };

    ghost remaining = { λ s. at_most (length s.bytes.now) };

    fn next(&mut self) -> Option<ListedEntry> {
        let kind = Kind::try_from(byte_at(self.bytes, 0)).ok()?;
        let behind = self.bytes.get(kind.size()..)?;
        let entry = ListedEntry::read(kind, self.bytes);
        self.bytes = behind;
        Some(entry)
    }
}
