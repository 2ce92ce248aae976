//! The reasons of an entry's place, written from the rows: the row behind the entry, then one step for each group
//! outward.

ghost use Rattle.std.specs.Prelude.{◌≡◌, [], ◌+◌, ◌≤◌, ◌<◌, length, MatchOption};
ghost use Rattle.definition.specs.Calls.{after_writing, left, report};
ghost use Rattle.definition.specs.declared.Report.{Report};
ghost use Rattle.definition.specs.Tree.{root};
ghost use Rattle.layout.specs.Places.{rows_forest};
ghost use Rattle.layout.specs.Shown.{list_in};
ghost use Rattle.definition.specs.Reasons.{reason_kind, reason_name, adds as adds_of, reason_bytes, reasons_bytes};
ghost use Rattle.output.specs.Puts.{Puts};
ghost use Rattle.rows.specs.Rows.{row_in, row_code};
ghost use Rattle.reports.specs.Chained.{placing_at, own_at, group_at, chain_of, Settled, Explainable};

use definition::{Reason, Refusal, Span};
use output::{Sink, Written};
use record::LaidRecord;
use rows::Rows;

// ---------------------------------------------------------------- bytes

// A reason's kind, the item that it names, if any, and the bytes that it adds.
// A kind is the byte that a reason begins with in the output.
fn parts_of(reason: Reason) -> (u8, Span, usize)
    ensures { result ≡ (reason_kind reason, reason_name reason, adds_of reason) }
{
    match reason {
        Reason::First => (1, Span::ABSENT, 0),
        Reason::After { name, adds } => (2, name, adds),
        Reason::Slack { adds } => (3, Span::ABSENT, adds),
        Reason::Over { name, adds } => (4, name, adds),
        Reason::Inside { name } => (5, name, 0),
    }
}

// Puts a reason.
fn put_reason(sink: &mut Sink, reason: Reason)
    requires { sink.old.at ≤ 65536 }
    ensures { Puts sink.old (reason_bytes reason) sink.new }
{
    let (kind, name, adds) = parts_of(reason);
    sink.byte(kind);
    sink.span(name);
    sink.number(adds);
}

// ---------------------------------------------------------------- the rows of a record

// A row of a record that was laid, whose fields begin at row `from`.
#[derive(Clone, Copy)]
struct LaidRow<'a> {
    rows: Rows<'a>,
    from: usize,
    row: usize,
    ghost settled: { Settled rows.all.now from rows.count },
    ghost inside: { (from ≤ row) × (row < rows.count) },
}

impl<'a> LaidRow<'a> {
    // Its placing reason: laid over the row that its REDEFINES names, or directly after the latest sibling without one;
    // the layout kept both.
    #[tactic(auto, unfolding(crate::specs::Chained::placing_at))]
    fn placing(self) -> Reason
        ensures { result ≡ placing_at self.entry.rows.all.now self.entry.row }
    {
        let row = self.rows.row(self.row);
        let adds = (row.place.offset - row.place.slack) as usize;
        if row.statement.clauses.redefines.is_given() {
            match row.place.target {
                Some(target) => Reason::Over {
                    name: self.rows.row(usize::from(target)).statement.name,
                    adds,
                },
                None => Reason::First,
            }
        } else {
            match row.place.plain {
                Some(sibling) => Reason::After {
                    name: self.rows.row(usize::from(sibling)).statement.name,
                    adds,
                },
                None => Reason::First,
            }
        }
    }

    // Puts its own reasons: what placed it, and its slack, if any.
    fn put_own(self, sink: &mut Sink)
        requires { sink.old.at + 13 ≤ 65536 }
        ensures { Puts sink.old (reasons_bytes (own_at self.entry.rows.all.now self.entry.row)) sink.new }
    {
        put_reason(sink, self.placing());
        let slack = self.rows.row(self.row).place.slack as usize;
        let slacks = slack != 0;
        if slacks {
            put_reason(sink, Reason::Slack { adds: slack });
        }
    }

    // Puts the reasons of its group: inside it, and its own.
    fn put_group(self, sink: &mut Sink)
        requires { sink.old.at + 26 ≤ 65536 }
        ensures { Puts sink.old (reasons_bytes (group_at self.entry.rows.all.now self.entry.row)) sink.new }
    {
        put_reason(
            sink,
            Reason::Inside {
                name: self.rows.row(self.row).statement.name,
            },
        );
        self.put_own(sink);
    }

    // The group around it; none around a field of the record.
    fn outer(self) -> Option<Self>
        ensures { MatchOption result (row_code (row_in self.entry.rows.all.now self.entry.row).parent ≤ self.entry.from)
            (λ x. (x.rows ≡ self.entry.rows) × (x.from ≡ self.entry.from)
            × (row_code (row_in self.entry.rows.all.now self.entry.row).parent ≡ x.row + 1)) }
    {
        let group = usize::from(self.rows.row(self.row).parent?);
        if group < self.from {
            return None;
        }
        Some(LaidRow {
            rows: self.rows,
            from: self.from,
            row: group,
        })
    }
}

impl<'a> Written for LaidRow<'a> {
    ghost bytes = { λ x. reasons_bytes (chain_of x.rows.all.now x.from x.row) };

    // Its chain: its own reasons, then those of the groups around it, outward up to the fields of the record.
    // std's `successors` counts as endless, so that no `for` over it is proved to end.
    fn put(self, sink: &mut Sink) {
        self.put_own(sink);
        let mut outer = self.outer();
        while let Some(group) = outer {
            group.put_group(sink);
            outer = group.outer();
        }
    }
}

// ---------------------------------------------------------------- an entry

/// Writes the reasons of entry `number` of a record that was laid out: 53 past its entries; 31, with the length of the
/// reasons, if the output has no room for them.
pub fn write_reasons(laid: LaidRecord, number: usize, out: &mut [u8]) -> Result<usize, Refusal>
    requires { Explainable laid }
    ensures { left result out.new []
        ≡ after_writing
        (report (Report.Reasons number) (length out.old) laid.entry.text.now
        (root (rows_forest laid.entry.table.rows.all.now 0 laid.entry.table.rows.count))
        (rows_forest laid.entry.table.rows.all.now laid.entry.from laid.entry.table.rows.count)
        (list_in laid.entry.table.rows.all.now laid.entry.from laid.entry.table.rows.count))
        out.old [] }
{
    let item = laid.table.items.get(number).ok_or(Refusal::NoSuchEntry)?;
    let row = LaidRow {
        rows: laid.table.rows,
        from: laid.from,
        row: item.row as usize,
    };
    output::write(row, out)
}
