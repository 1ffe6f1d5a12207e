// Opening a point.
ghost use Rattle.std.specs.Prelude.{◌≡◌, ◌<◌, length, OnOk};
ghost use Rattle.terms.specs.declared.points.Side.TheVariants.{Exit};
ghost use Rattle.rules.specs.Limits.{most_points};
ghost use Rattle.book.specs.Shows.{held_in, row_of};
ghost use Rattle.book.specs.Follows.{Checked, Follows, Kept, opened};

use crate::limits::{MOST_ENTRIES, MOST_EXITS};
use crate::pass::survey;
use crate::record::PointRecord;
use crate::table::{PointTable, other_side};
use network::source::Source;
use rules::calls::Call;
use terms::faults::BookFault;
use terms::measures::Lots;
use terms::points::{Kind, Side};

fn most_points(side: Side) -> usize
    ensures { result ≡ most_points side }
{
    match side {
        Side::Entry => MOST_ENTRIES,
        Side::Exit => MOST_EXITS,
    }
}

impl PointTable {
    fn check_open<S: Source>(
        &self,
        source: &S,
        side: Side,
        kind: Kind,
        station: u32,
    ) -> Result<(), BookFault>
        ensures checked { Checked (S.Source.net source.now) self.now (Call.Open side kind station) result }
        ensures space { OnOk result (length (held_in (row_of self.now side)) < most_points Exit) }
    {
        if !kind.is_of(side) {
            return Err(BookFault::KindNotOfSide);
        }
        if self.row(side).held().len() >= most_points(side) {
            return Err(BookFault::SideFull);
        }
        if station >= source.stations() {
            return Err(BookFault::NoStation);
        }
        let opposite = self.row(other_side(side)).held();
        survey(source, station, opposite)
    }

    // The number of the new point.
    pub(crate) fn open<S: Source>(
        &mut self,
        source: &S,
        side: Side,
        kind: Kind,
        station: u32,
    ) -> Result<u32, BookFault>
        ensures kept { Kept result self.old self.new }
        ensures step { Follows (S.Source.net source.now) self.old (Call.Open side kind station) (opened result) self.new }
    {
        self.check_open(source, side, kind, station)?;
        let number = self.points();
        self.row_mut(side).push(PointRecord {
            number,
            kind,
            station,
            lots: Lots(0),
        });
        Ok(number)
    }
}
