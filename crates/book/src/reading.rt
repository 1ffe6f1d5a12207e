// The figures of a book.
ghost use Rattle.std.specs.Prelude.{◌≡◌, ◌+◌, length};
ghost use Rattle.std.specs.List.{slice_get};
ghost use Rattle.rules.specs.Points.{on_side, lots_of};
ghost use Rattle.book.specs.Records.{record_lots};
ghost use Rattle.book.specs.Shows.{held_in, row_of};
ghost use Rattle.book.specs.Figures.{Sees, Recorded, seen_point};

use crate::ledger::Book;
use network::source::Source;
use terms::measures::{Dinars, Lots};
use terms::points::{Kind, Side};

// A point of a book.
#[derive(Clone, Copy, PartialEq, Eq, Debug)]
pub struct Point {
    pub side: Side,
    pub kind: Kind,
    pub station: u32,
    pub lots: Lots,
}

// The figures of a book, each that of the plain book.
impl<S: Source> Book<S> {
    // How many points are open, on both sides.
    pub fn points(&self) -> u32
        ensures value { result ≡ length (held_in self.now.table.entries) + length (held_in self.now.table.exits) }
        ensures figure { Sees self.now.table (λ p. result ≡ length p.points) }
    {
        self.table.points()
    }

    // The point with this number.
    pub fn point(&self, number: u32) -> Option<Point>
        ensures value { Recorded self.now.table number result }
        ensures figure { Sees self.now.table (λ p. seen_point result ≡ slice_get p.points number) }
    {
        let (side, at) = self.table.locate(number)?;
        let found = self.table.row(side).held()[at];
        Some(Point {
            side,
            kind: found.kind,
            station: found.station,
            lots: found.lots,
        })
    }

    // The planned lots of a side.
    pub fn lots(&self, side: Side) -> Lots
        ensures value { result.0 ≡ record_lots (held_in (row_of self.now.table side)) }
        ensures figure { Sees self.now.table (λ p. result.0 ≡ lots_of (on_side side p.points)) }
    {
        self.table.row(side).lots()
    }

    // The storage relief of a side, in ten-thousandths.
    pub fn relief(&self, side: Side) -> u32
        ensures value { result ≡ (row_of self.now.table side).relief.parts }
        ensures figure { Sees self.now.table (λ p. result ≡ p.relief side) }
    {
        self.table.row(side).relief().get()
    }

    // The allowed revenue of the last closed period, or 0.
    pub fn allowed(&self) -> Dinars<u64>
        ensures value { result ≡ self.now.table.allowed.dinars }
        ensures figure { Sees self.now.table (λ p. result.0 ≡ p.allowed) }
    {
        self.table.allowed.get()
    }

    // What is carried on to the next period.
    pub fn carried(&self) -> Dinars<i64>
        ensures value { result ≡ self.now.table.carried.amount }
        ensures figure { Sees self.now.table (λ p. result.0 ≡ p.carried) }
    {
        self.table.carried.amount()
    }
}
