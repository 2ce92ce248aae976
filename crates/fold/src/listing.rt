//! The bytes of the layout listing, put into a lent output: the record's head, and the line of an entry.

ghost use Rattle.std.specs.Prelude.{◌≡◌};
ghost use Rattle.definition.specs.Listing.{occurs_bytes, details};
ghost use Rattle.fold.specs.Puts.{head_bytes, place_bytes, line_bytes};
ghost use Rattle.output.specs.Puts.{Countable, Puts};

use definition::{FieldKind, Span};
use output::Sink;
use rows::kinds;
use rows::kinds::Coded;

/// What the listing says of an entry.
#[derive(Clone, Copy)]
pub struct Line {
    /// What it holds.
    pub kind: FieldKind,
    /// Its name.
    pub name: Span,
    /// Where it starts in its list, in bytes.
    pub offset: usize,
    /// Its bytes.
    pub width: usize,
    /// How often it stands, if OCCURS says so.
    pub occurs: Option<u64>,
    /// The name of its DEPENDING ON.
    pub depending: Span,
    /// The name of its REDEFINES.
    pub redefines: Span,
    /// Its picture.
    pub picture: Span,
}

// ---------------------------------------------------------------- what is put

// How often an item stands: the mark of OCCURS and the count, also where that is 0.
fn put_occurs(sink: &mut Sink, times: Option<u64>)
    requires { Countable sink.old.at (occurs_bytes times) }
    ensures { Puts sink.old (occurs_bytes times) sink.new }
{
    match times {
        None => {
            sink.byte(0);
            sink.number(0);
        }
        Some(n) => {
            sink.byte(1);
            sink.number(n as usize);
        }
    }
}

// What the kind adds to an entry with n members.
fn put_details(sink: &mut Sink, kind: FieldKind, picture: Span, n: usize)
    requires { Countable sink.old.at (details kind picture n) }
    ensures { Puts sink.old (details kind picture n) sink.new }
{
    match kind {
        FieldKind::Text => {}
        FieldKind::Int { signed, sign } => {
            sink.bytes([signed.code(), sign.code()]);
        }
        FieldKind::Binary { signed } => sink.byte(signed.code()),
        FieldKind::Decimal {
            precision,
            scale,
            repr,
            sign,
        } => {
            sink.bytes([precision, scale, repr.code(), sign.code()]);
        }
        FieldKind::Edited {
            precision,
            scale,
            signed,
        } => {
            sink.bytes([precision, scale, signed.code()]);
            sink.span(picture);
        }
        FieldKind::Group => sink.number(n),
        FieldKind::Float { bits } => sink.byte(bits),
    }
}

/// The record's head: kind 0, its length, whether that varies, how many entries stand at the top.
pub fn put_head(sink: &mut Sink, length: usize, variable: bool, top: usize)
    requires { Countable sink.old.at (head_bytes length variable top) }
    ensures { Puts sink.old (head_bytes length variable top) sink.new }
{
    sink.byte(0);
    sink.number(length);
    sink.byte(variable.code());
    sink.number(top);
}

// An entry's kind, name, offset and width.
fn put_place(sink: &mut Sink, line: Line)
    requires { Countable sink.old.at (place_bytes line) }
    ensures { Puts sink.old (place_bytes line) sink.new }
{
    sink.byte(kinds::kind_byte(line.kind));
    sink.span(line.name);
    sink.pair(line.offset, line.width);
}

/// The line of an entry with n members.
#[tactic(auto, using(crate::proofs::PutLaws::line_sizes))]
pub fn put_line(sink: &mut Sink, line: Line, n: usize)
    requires { Countable sink.old.at (line_bytes line n) }
    ensures { Puts sink.old (line_bytes line n) sink.new }
{
    put_place(sink, line);
    put_occurs(sink, line.occurs);
    sink.span(line.depending);
    sink.span(line.redefines);
    put_details(sink, line.kind, line.picture, n);
}
