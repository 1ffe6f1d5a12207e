// Planning the lots of a point.
ghost use Rattle.std.specs.Prelude.{◌≡◌, IfOk};
ghost use Rattle.network.specs.Net.{Net};
ghost use Rattle.book.specs.Steps.{Plannable};
ghost use Rattle.book.specs.Follows.{Checked, Follows, Kept, done};

use crate::limits::MOST_LOTS;
use crate::record::PointRecord;
use crate::table::PointTable;
use rules::calls::Call;
use terms::faults::BookFault;
use terms::measures::Lots;
use terms::points::Side;

impl PointTable {
    // Where the point stands, unless a check refuses.
    fn check_plan(&self, point: u32, lots: Lots) -> Result<(Side, usize), BookFault>
        ensures checked { (net : Net) → Checked net self.now (Call.Plan point lots) result }
        ensures place { IfOk result (Plannable self.now point lots.0) }
    {
        let (side, at) = self.locate(point).ok_or(BookFault::NoPoint)?;
        let row = self.row(side);
        let others = row.lots().0 - row.held()[at].lots.0;
        if lots.0 > MOST_LOTS - others {
            return Err(BookFault::TooManyLots);
        }
        Ok((side, at))
    }

    pub(crate) fn plan(&mut self, point: u32, lots: Lots) -> Result<(), BookFault>
        ensures kept { Kept result self.old self.new }
        ensures step { (net : Net) → Follows net self.old (Call.Plan point lots) (done result) self.new }
    {
        let (side, at) = self.check_plan(point, lots)?;
        let planned = PointRecord {
            lots,
            ..self.row(side).held()[at]
        };
        self.row_mut(side).put(at, planned);
        Ok(())
    }
}
