//! The byte owner over a laid record: which piece or slack a byte belongs to, found from row to row with no piece laid.
//! Leans on `record`.
#![tactic(auto)]

ghost use Rattle.std.specs.Prelude.{◌≡◌, ◌-◌, ◌<◌};
ghost use Rattle.std.specs.List.{list_any, range_with_len};
ghost use Rattle.definition.specs.Basic.{Ok};
ghost use Rattle.definition.specs.Calls.{owner_in};
ghost use Rattle.definition.specs.Tree.{root};
ghost use Rattle.definition.specs.Owner.{overlaid};
ghost use Rattle.definition.specs.Search.{rows as rows_of, walk};
ghost use Rattle.rows.specs.Rows.{statement_at};
ghost use Rattle.layout.specs.Places.{rows_forest};
ghost use Rattle.layout.specs.Shown.{list_in};
ghost use Rattle.owner.specs.Walked.{overlays, Searchable, Walkable};

use definition::{Owner, Refusal};
use layout::unions;
use record::LaidRecord;
use rows::Rows;

// Whether row k has a REDEFINES or a DEPENDING ON.
fn is_overlay(rows: Rows, k: usize) -> bool
    requires { k < rows.count }
    ensures { result ≡ overlays (statement_at rows.entry.all.now k) }
{
    rows.row(k).statement.clauses.redefines.is_given()
        || rows.row(k).statement.clauses.depending.is_given()
}

// Whether one of the rows from `from` on has one.
// `is_overlaid` says it of the forest; this is a step of that proof.
fn some_overlay(rows: Rows, from: usize) -> bool
    ensures { result
        ≡ list_any (λ k. overlays (statement_at rows.entry.all.now k))
        (range_with_len from (rows.entry.count - from)) }
{
    (from..rows.count).any(|k| is_overlay(rows, k))
}

/// Whether some row from `from` on has a REDEFINES or a DEPENDING ON.
pub fn is_overlaid(rows: Rows, from: usize) -> bool
    ensures { result ≡ overlaid (rows_forest rows.entry.all.now from rows.entry.count) }
{
    some_overlay(rows, from)
}

/// The owner of the byte at a position of the record in the rows from `from` on: slack before a row's offset, or at the
/// end of an occurrence of it; else that occurrence, or what is found in a row below it; else the next row that is not
/// below it; none behind them all.
#[tactic(auto, using(crate::proofs::OwnerLaws::walk_steps))]
pub fn walk_rows(rows: Rows, from: usize, position: usize) -> Option<Owner>
    requires { Walkable rows.all.now from rows.count }
    ensures { result ≡ walk 0 0 0 (rows_of (list_in rows.entry.all.now from rows.entry.count)) position }
{
    let mut k = from;
    let mut first = 0;
    let mut q = position;
    // The walk goes into a row or past it, so no iterator gives the next one.
    while k < rows.count {
        let row = rows.row(k);
        let offset = row.place.offset as usize;
        let before = q < offset;
        if before {
            return Some(Owner::Slack { entry: k - from });
        }
        let width = row.place.width as usize;
        let below = row.below as usize;
        let r = q - offset;
        if r < unions::row_total(rows, k) {
            first += offset + r / width * width;
            q = r % width;
            let at_end = usize::from(row.place.slack_at_end);
            if width.saturating_sub(at_end) <= q {
                return Some(Owner::Slack { entry: k - from });
            }
            if below == 0 {
                return Some(Owner::Piece {
                    entry: k - from,
                    first,
                    place: q,
                });
            }
            k += 1;
        } else {
            k += 1 + below;
        }
    }
    None
}

/// The byte owner of a position in a record that was laid: 40 for a REDEFINES or a DEPENDING ON, 41 for a position that
/// is not below the record's length. Every byte below it has an owner.
pub fn owner_of(laid: LaidRecord, position: usize) -> Result<Owner, Refusal>
    requires { Searchable laid }
    ensures { result
        ≡ owner_in position laid.entry.text.now
        (root (rows_forest laid.entry.table.rows.all.now 0 laid.entry.table.rows.count))
        (rows_forest laid.entry.table.rows.all.now laid.entry.from laid.entry.table.rows.count)
        (list_in laid.entry.table.rows.all.now laid.entry.from laid.entry.table.rows.count) }
{
    if is_overlaid(laid.table.rows, laid.from) {
        return Err(Refusal::Overlaid);
    }
    if laid.length <= position {
        return Err(Refusal::OutsideRecord);
    }
    Ok(walk_rows(laid.table.rows, laid.from, position).unwrap())
}
