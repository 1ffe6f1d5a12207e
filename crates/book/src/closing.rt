// Closing a period on the carried amount.
ghost use Rattle.std.specs.Prelude.{◌≡◌};
ghost use Rattle.network.specs.Net.{Net};
ghost use Rattle.book.specs.Follows.{Follows, Kept, closed};

use crate::table::PointTable;
use pricing::amount::Amount;
use revenue::carried::Carried;
use revenue::figures::{Closing, Figures};
use revenue::period::close;
use rules::calls::Call;
use terms::faults::BookFault;

impl PointTable {
    pub(crate) fn close(&mut self, figures: Figures) -> Result<Closing, BookFault>
        ensures kept { Kept result self.old self.new }
        ensures step { (net : Net) → Follows net self.old (Call.Close figures) (closed result) self.new }
    {
        let closing = close(figures, self.carried)?;
        self.allowed = Amount::new(closing.allowed).unwrap();
        self.carried = Carried::new(closing.rest).unwrap();
        Ok(closing)
    }
}
