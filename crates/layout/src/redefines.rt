//! The search that a REDEFINES makes among the earlier siblings in the rows, backward from the item: for its target (28
//! where none has the name), with the count of names compared, and for its base; and the siblings that may place it.
//! Where the fingerprints of two names differ, the names do.

ghost use Rattle.std.specs.Prelude.{◌≡◌, ◌≤◌, ◌<◌, false, length};
ghost use Rattle.definition.specs.declared.Refusal.{Refusal};
ghost use Rattle.definition.specs.Basic.{or_refuse};
ghost use Rattle.layout.specs.Targets.{among_bases, left_out, is_target, Ended, seen_at, search_of, target_search};
ghost use Rattle.layout.specs.Targets.{target_from, start_of, target_in, Named, base_from, plain_after};
ghost use Rattle.layout.specs.Fingerprints.{Fingerprinted, PassedBack, PassedOver};
ghost use Rattle.text.specs.Fingerprints.{name_fingerprint};
ghost use Rattle.rows.specs.Rows.{row_of_code, row_code, row_in};

use definition::{Refusal, Span};
use rows::Rows;
use text::names;

/// Which of the earlier siblings a search looks at.
#[derive(Clone, Copy)]
enum Among {
    Siblings,
    Bases,
}

/// Where a search ended, if a sibling has the name; and how many names it compared.
#[derive(Clone, Copy)]
pub struct SearchEnd {
    /// The sibling's row, if one has the name.
    pub row: Option<usize>,
    /// How many names were compared.
    pub compared: usize,
}

/// Where an item starts, and the row that it redefines, if any.
#[derive(Clone, Copy)]
pub struct Start {
    /// The row that it redefines, if any.
    pub target: Option<usize>,
    /// Where it starts in its list, in bytes.
    pub offset: usize,
}

/// Rows that have the fingerprints of their names, and the text that the names stand in: what is searched.
#[derive(Clone, Copy)]
pub struct FingerprintedRows<'a> {
    /// The text that their names stand in.
    pub text: &'a [u8],
    /// The rows.
    pub rows: Rows<'a>,
    ghost fingerprinted: { Fingerprinted text.now rows.all.now rows.count },
}

impl<'a> FingerprintedRows<'a> {
    /// These rows, whose names stand in this text.
    pub fn new(text: &'a [u8], rows: Rows<'a>) -> Self
        requires { Fingerprinted text.now rows.all.now rows.count }
        ensures { (result.text.now ≡ text.now) × (result.rows.all.now ≡ rows.entry.all.now)
            × (result.rows.count ≡ rows.entry.count) }
    {
        FingerprintedRows { text, rows }
    }

    // Whether the search passes over row k: one among bases passes over a redefiner.
    fn passed_over(self, k: usize, among: Among) -> bool
        requires { k < self.rows.count }
        ensures { result ≡ left_out (among_bases among) self.entry.rows.all.now k }
    {
        match among {
            Among::Siblings => false,
            Among::Bases => self.rows.row(k).statement.clauses.redefines.is_given(),
        }
    }

    // Whether row k is what a search for this name, with this fingerprint, ends at.
    fn is_target(self, target: Span, fingerprint: u32, k: usize, among: Among) -> bool
        requires { (k < self.rows.count) × (fingerprint ≡ name_fingerprint self.text.now target) }
        ensures { result ≡ is_target self.entry.text.now target (among_bases among) self.entry.rows.all.now k }
    {
        if self.rows.row(k).fingerprint != fingerprint {
            return false;
        }
        !self.passed_over(k, among)
            && names::same_names(self.text, target, self.rows.row(k).statement.name)
    }

    // From `last` back over siblings with other fingerprints, or that the search passes over, as long as each is the row
    // after the one before it.
    fn pass_back(self, last: usize, fingerprint: u32, among: Among) -> usize
        requires { last ≤ self.rows.count }
        ensures over { PassedOver self.entry.rows.all.now (among_bases among) fingerprint last result }
        ensures back { among_bases among ≡ false → PassedBack self.entry.rows.all.now fingerprint last result }
    {
        let mut k = last;
        // Not a `for` over the rows before: it is compiled with one instruction more for each of them.
        while 0 < k {
            let row = self.rows.row(k - 1);
            let may_end = row.fingerprint == fingerprint && !self.passed_over(k - 1, among);
            if may_end || row.place.gap != 0 {
                return k;
            }
            k -= 1;
        }
        0
    }

    // The latest sibling of that name from `last` back, or the latest base of that name.
    fn search_back(self, target: Span, last: usize, among: Among) -> SearchEnd
        requires { last ≤ self.rows.count }
        ensures { Ended self.entry.text.now target (among_bases among) self.entry.rows.all.now last result }
    {
        let fingerprint = names::fingerprint_of(self.text, target);
        let mut k = self.pass_back(last, fingerprint, among);
        // rows passed that are no siblings
        let mut gaps = 0;
        // A turn goes back over all rows that `pass_back` and `siblings_end` leave out.
        while let Some(row) = k.checked_sub(1) {
            if self.is_target(target, fingerprint, row, among) {
                return SearchEnd {
                    row: Some(row),
                    compared: last - row - gaps,
                };
            }
            let before = self.rows.siblings_end(row);
            gaps += row - before;
            k = self.pass_back(before, fingerprint, among);
        }
        SearchEnd {
            row: None,
            compared: last - gaps,
        }
    }

    /// The sibling that a REDEFINES names, from the siblings before `last` back; without one nothing is searched for.
    pub fn target_of(self, redefines: Span, last: usize) -> SearchEnd
        requires { last ≤ self.rows.count }
        ensures { (search_of self.entry.rows.all.now result
            ≡ target_search self.entry.text.now redefines (seen_at self.entry.rows.all.now last))
            × (result.row ≡ row_of_code (target_from self.entry.text.now redefines self.entry.rows.all.now last))
            × (target_from self.entry.text.now redefines self.entry.rows.all.now last ≤ last) }
    {
        if redefines.is_given() {
            return self.search_back(redefines, last, Among::Siblings);
        }
        SearchEnd {
            row: None,
            compared: 0,
        }
    }

    /// Where an item with this REDEFINES starts: where its target does, or 28, at the item's position, where it has
    /// none.
    pub fn start_over(self, redefines: Span, at: usize, last: usize) -> Result<Start, Refusal>
        requires { last ≤ self.rows.count }
        ensures { (start_of result
            ≡ or_refuse (Refusal.NoTarget at)
            (target_search self.entry.text.now redefines (seen_at self.entry.rows.all.now last)).found)
            × (target_in result ≡ row_of_code (target_from self.entry.text.now redefines self.entry.rows.all.now last))
            × (target_from self.entry.text.now redefines self.entry.rows.all.now last ≤ last) }
    {
        let found = self.target_of(redefines, last).row;
        let row = found.ok_or(Refusal::NoTarget { position: at })?;
        Ok(Start {
            target: Some(row),
            offset: self.rows.row(row).place.offset as usize,
        })
    }

    /// The base of that name, where the search for the target ended at the row `target`: that row itself, or where it
    /// is a redefiner, what a second search finds from there back.
    pub fn base_of(self, redefines: Span, target: Option<usize>) -> Option<usize>
        requires { (row_code target ≤ self.rows.count)
            × Named self.text.now redefines self.rows.all.now (row_code target) }
        ensures { (result
            ≡ row_of_code
            (base_from self.entry.text.now redefines self.entry.rows.all.now (row_code target) (row_code target)))
            × (base_from self.entry.text.now redefines self.entry.rows.all.now (row_code target) (row_code target)
            ≤ row_code target) }
    {
        let row = target?;
        if self.passed_over(row, Among::Bases) {
            let before = self.rows.siblings_end(row);
            return self.search_back(redefines, before, Among::Bases).row;
        }
        Some(row)
    }
}

/// The latest sibling without REDEFINES from `last` back: that one, or the one that it names.
pub fn plain_after(rows: Rows, last: usize) -> Option<u16>
    requires { (last ≤ rows.count) × (last < 65536) }
    ensures { row_code result ≡ plain_after rows.entry.all.now last }
{
    let row = last.checked_sub(1)?;
    if rows.row(row).statement.clauses.redefines.is_given() {
        return rows.row(row).place.plain;
    }
    Some(row as u16)
}
