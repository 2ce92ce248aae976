//! Reads a copybook from standard input and prints its layout: a line for the record, then a line for each entry of the
//! listing, those of `copybook layout` in docs/FORMATS.md. A refusal is one line. The depth is the number of groups
//! around an entry.
#![tactic(auto)]

use definition::{LEAST_WORK, MOST_BYTES};
use printing::depths::Depths;
use printing::{Entries, Head, ListedEntry, MOST, read_full, text_part};
use std::io;

// ---------------------------------------------------------------- one entry

/// Prints the line of an entry at a depth.
fn print_entry(rt: &impl Print, text: &[u8], entry: ListedEntry, depth: usize) -> io::Result<()> {
    print!(rt; "{depth} ")?;
    rt.write_all(text_part(text, entry.name).unwrap_or(b"FILLER"))?;
    print!(rt; " {} {} {}", entry.offset, entry.width, entry.kind)?;
    match entry.occurs {
        Some(times) => print!(rt; " {times} ")?,
        None => print!(rt; " - ")?,
    }
    rt.write_all(text_part(text, entry.depending).unwrap_or(b"-"))?;
    rt.write_all(b" ")?;
    rt.write_all(text_part(text, entry.redefines).unwrap_or(b"-"))?;
    rt.write_all(b"\n")
}

// ---------------------------------------------------------------- the listing

/// Prints a listing: the line of the record, then the entries.
fn print_listing(rt: &impl Print, text: &[u8], listing: &[u8]) -> io::Result<()> {
    let Head {
        length,
        varies,
        top,
    } = Head::read(listing);
    let form = if varies { "variable" } else { "fixed" };
    println!(rt; "record {length} {form} {top}")?;
    let mut depths = Depths::new(top);
    for entry in Entries::of(listing) {
        let depth = depths.enter(entry.members);
        print_entry(rt, text, entry, depth)?;
    }
    Ok(())
}

/// Prints the layout of a copybook, or why it has none.
fn print_layout(rt: &impl Print, text: &[u8]) -> io::Result<()> {
    let mut work = [0; LEAST_WORK];
    let mut out = [0; MOST];
    match copybook::layout_listing(text, &mut work, &mut out) {
        Ok(n) => print_listing(rt, text, out.get(..n).unwrap_or(&out)),
        Err(r) => println!(rt; "refused {} {}", r.number(), r.position()),
    }
}

/// How much of a text is read: one byte more than a copybook may have.
const MOST_READ: usize = MOST_BYTES + 1;

// A text of 65,536 bytes or more is read up to there, and refused for its length.
fn main(rt: HostRuntime) -> io::Result<()> {
    // An array: a Vec's memory would rest on three axioms more.
    let mut room = [0; MOST_READ];
    let text = read_full(&mut rt.stdin(), &mut room)?;
    print_layout(&rt, text)
}
