//! The listing of a record, written from its table of entries, and only where all of it has room.

ghost use Rattle.std.specs.Prelude.{◌≡◌, [], length};
ghost use Rattle.definition.specs.Calls.{after_writing, fitting, left};
ghost use Rattle.reports.specs.Listed.{listing_of, Listable};

use definition::Refusal;
use fold::listing;
use output::{Sink, Written};
use record::LaidRecord;

// The listing of a record that was laid out.
#[derive(Clone, Copy)]
struct Listing<'a> {
    laid: LaidRecord<'a>,
    ghost tabled: { Listable laid },
}

impl<'a> Written for Listing<'a> {
    ghost bytes = { λ l. listing_of l.laid.text.now l.laid.table.rows.all.now l.laid.from l.laid.table.rows.count };

    fn put(self, sink: &mut Sink) {
        let variable = self.laid.table.varies();
        listing::put_head(sink, self.laid.length, variable, self.laid.top);
        self.laid.table.put(sink);
    }

    // One with 98 bytes for each row, and the head's ten, has room for every listing.
    fn has_ample(self, places: usize) -> bool {
        98 * self.laid.table.rows.count + 10 <= places
    }
}

/// Writes the listing of a record that was laid out, if the output has room for it, and answers its length; 31, with
/// its length, if not.
pub fn write_listing(laid: LaidRecord, out: &mut [u8]) -> Result<usize, Refusal>
    requires { Listable laid }
    ensures { left result out.new []
        ≡ after_writing
        (fitting (length out.old)
        (listing_of laid.entry.text.now laid.entry.table.rows.all.now laid.entry.from laid.entry.table.rows.count))
        out.old [] }
{
    output::write(Listing { laid }, out)
}
