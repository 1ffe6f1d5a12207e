// Setting the storage relief of a side.
ghost use Rattle.std.specs.Prelude.{◌≡◌};
ghost use Rattle.network.specs.Net.{Net};
ghost use Rattle.book.specs.Follows.{Follows, Kept, done};

use crate::table::PointTable;
use pricing::relief::Relief;
use rules::calls::Call;
use terms::faults::BookFault;
use terms::points::Side;

impl PointTable {
    pub(crate) fn relieve(&mut self, side: Side, parts: u32) -> Result<(), BookFault>
        ensures kept { Kept result self.old self.new }
        ensures step { (net : Net) → Follows net self.old (Call.Relieve side parts) (done result) self.new }
    {
        let relief = Relief::new(parts).ok_or(BookFault::ReliefTooHigh)?;
        self.row_mut(side).relieve(relief);
        Ok(())
    }
}
