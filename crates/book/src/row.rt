ghost use Rattle.std.specs.Prelude.{◌≤◌, take, ◌≡◌, ◌<◌, [], ◌∷◌, ◌++◌, length, slice_set};
ghost use Rattle.terms.specs.declared.points.Side.TheVariants.{Exit};
ghost use Rattle.rules.specs.Limits.{most_points, most_lots};
ghost use Rattle.book.specs.Records.{record_lots, Place};

use crate::limits::MOST_EXITS;
use crate::record::PointRecord;
use pricing::relief::Relief;
use terms::measures::Lots;
use terms::points::Kind;

// One side of a book's table. Its open points stand first in `places`, in the order in which they were opened.
// The places are an array filled by repetition, and no `Vec`, since no call of a book allocates; nor are they an `ArrayVec`, since
// the project's rule for a table is a plain array of 96 records for each side, and a row is plain data that can be copied.
#[derive(Clone, Copy)]
pub struct Row {
    places: [PointRecord; MOST_EXITS],
    count: usize,
    relief: Relief,
    ghost fits: { count ≤ most_points Exit },
    ghost light: { record_lots (take count places) ≤ most_lots },
}

impl Row {
    ghost use Rattle.book.specs.Shows.{held_in};

    // No open point, and no relief.
    pub(crate) fn empty() -> Row
        ensures held { held_in result ≡ [] }
        ensures relief { result.relief.parts ≡ 0 }
    {
        let blank = PointRecord {
            number: 0,
            kind: Kind::Transmission,
            station: 0,
            lots: Lots(0),
        };
        Row {
            places: [blank; MOST_EXITS],
            count: 0,
            relief: Relief::NONE,
        }
    }

    // The open points.
    pub(crate) fn held(&self) -> &[PointRecord]
        ensures value { result.now ≡ held_in self.now }
        ensures few { length result.now ≤ most_points Exit }
        ensures light { record_lots result.now ≤ most_lots }
    {
        &self.places[0..self.count]
    }

    pub(crate) fn relief(&self) -> Relief
        ensures { result ≡ self.now.relief }
    {
        self.relief
    }

    // The place of the open point with this number.
    pub(crate) fn position(&self, number: u32) -> Option<usize>
        ensures { Place (held_in self.now) number result }
    {
        self.held().iter().position(|point| point.number == number)
    }

    // The lots of the open points.
    pub(crate) fn lots(&self) -> Lots
        ensures value { result.0 ≡ record_lots (held_in self.now) }
        ensures bound { result.0 ≤ most_lots }
    {
        Lots(self.held().iter().map(|point| point.lots.0).sum())
    }

    pub(crate) fn push(&mut self, added: PointRecord)
        requires space { length (held_in self.old) < most_points Exit }
        requires unplanned { added.lots.0 ≡ 0 }
        ensures held { held_in self.new ≡ held_in self.old ++ (added ∷ []) }
        ensures relief { self.new.relief ≡ self.old.relief }
    {
        let at = self.count;
        self.places[at] = added;
        self.count = at + 1;
    }

    pub(crate) fn put(&mut self, at: usize, written: PointRecord)
        requires within { at < length (held_in self.old) }
        requires light { record_lots (slice_set (held_in self.old) at written) ≤ most_lots }
        ensures held { held_in self.new ≡ slice_set (held_in self.old) at written }
        ensures relief { self.new.relief ≡ self.old.relief }
    {
        self.places[at] = written;
    }

    pub(crate) fn relieve(&mut self, relief: Relief)
        ensures held { held_in self.new ≡ held_in self.old }
        ensures relief { self.new.relief ≡ relief }
    {
        self.relief = relief;
    }
}
