//! The extract of a laid record: the bytes of its top-level items, and the heaviest choice of them that fits; in a
//! module the subsets. Leans on `record`, and on `owner` for what refuses an extract too.
#![tactic(auto)]

ghost use Rattle.std.specs.Prelude.{◌≡◌};
ghost use Rattle.definition.specs.Calls.{extract_in};
ghost use Rattle.definition.specs.Tree.{root};
ghost use Rattle.layout.specs.Places.{rows_forest};
ghost use Rattle.layout.specs.Shown.{list_in};
ghost use Rattle.extract.specs.Gathered.{totals, Gatherable, Extractable};

use crate::subsets::Terms;
use definition::{Extract, MOST_ITEMS, Refusal};
use layout::places::Siblings;
use layout::unions;
use record::LaidRecord;

pub mod subsets;

// The bytes of each item of a record that was laid, those below it aside.
fn put_widths(laid: LaidRecord, widths: &mut [u32])
    requires { Gatherable laid.table.rows.all.now laid.from laid.table.rows.count widths.old }
    ensures { widths.new
        ≡ totals (list_in laid.entry.table.rows.all.now laid.entry.from laid.entry.table.rows.count) }
{
    for (i, sibling) in Siblings::new(laid.table.rows, laid.from).enumerate() {
        widths[i] = unions::row_total(laid.table.rows, sibling.row) as u32;
    }
}

/// The extract of a record that was laid, by these terms: 40 for a REDEFINES or a DEPENDING ON, 58 for more than 16
/// items or another number of weights, 59 for a weight outside its range, 60 for a budget of 0.
pub fn extract_of(laid: LaidRecord, terms: Terms) -> Result<Extract, Refusal>
    requires { Extractable laid }
    ensures { result
        ≡ extract_in terms.entry.weights.now terms.entry.limit terms.entry.budget laid.entry.text.now
        (root (rows_forest laid.entry.table.rows.all.now 0 laid.entry.table.rows.count))
        (rows_forest laid.entry.table.rows.all.now laid.entry.from laid.entry.table.rows.count)
        (list_in laid.entry.table.rows.all.now laid.entry.from laid.entry.table.rows.count) }
{
    if owner::is_overlaid(laid.table.rows, laid.from) {
        return Err(Refusal::Overlaid);
    }
    if MOST_ITEMS < laid.top {
        return Err(Refusal::WrongItems);
    }
    let mut room = [0u32; MOST_ITEMS];
    let widths = &mut room[..laid.top];
    put_widths(laid, widths);
    subsets::choose(widths, terms)
}
