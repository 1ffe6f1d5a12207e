// Drawing the six shares and tariffs of the allowed revenue.
ghost use Rattle.std.specs.Prelude.{◌≡◌};
ghost use Rattle.book.specs.Shows.{held_in};
ghost use Rattle.book.specs.Tallies.{record_side_lots};
ghost use Rattle.book.specs.Follows.{Follows, drawn};

use crate::row::Row;
use crate::table::PointTable;
use crate::weighing::{side_lots, six_weights};
use network::source::Source;
use pricing::basis::Weights;
use pricing::decision::{Draft, draw};
use pricing::plan::SidePlan;
use rules::calls::Call;
use terms::faults::BookFault;
use terms::points::Side;

// What a draw takes of a side, with these weights. A row does not hold its side: it is the `entries` or the `exits` of a table.
fn side_plan(side: Side, row: &Row, weights: Weights) -> SidePlan
    ensures weights { result.weights ≡ weights }
    ensures lots { result.lots ≡ record_side_lots side (held_in row.now) }
    ensures relief { result.relief ≡ row.now.relief }
{
    SidePlan {
        weights,
        lots: side_lots(side, row),
        relief: row.relief(),
    }
}

impl PointTable {
    pub(crate) fn draw<S: Source>(&self, source: &S) -> Result<Draft, BookFault>
        ensures { Follows (S.Source.net source.now) self.now Call.Draw (drawn result) self.now }
    {
        let (of_entries, of_exits) = six_weights(source, &self.entries, &self.exits);
        let entries = side_plan(Side::Entry, &self.entries, of_entries);
        let exits = side_plan(Side::Exit, &self.exits, of_exits);
        draw(self.allowed, entries, exits)
    }
}
