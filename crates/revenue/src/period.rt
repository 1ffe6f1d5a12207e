// Closing a period.
ghost use Rattle.std.specs.Prelude.{◌≤◌, IfOk, unsigned_abs};
ghost use Rattle.terms.specs.Refusals.{Ruled};
ghost use Rattle.terms.specs.Faults.{book_refusal};
ghost use Rattle.revenue.specs.Checks.{close_rules};
ghost use Rattle.revenue.specs.Closings.{closing_of};
ghost use Rattle.revenue.specs.Limits.{most_carried, most_allowed};
ghost use Rattle.revenue.specs.Law.{Continues};

use crate::carried::Carried;
use crate::checked::CheckedFigures;
use crate::figures::{Closing, Figures};
use crate::settlement::Settlement;
use terms::faults::BookFault;

// Closes a period on its figures and the amount that is carried on to it.
pub fn close(figures: Figures, carried: Carried) -> Result<Closing, BookFault>
    ensures ruled { Ruled book_refusal (close_rules carried.amount.0 figures) (closing_of carried.amount.0 figures) result }
    ensures within { IfOk result (λ c. (unsigned_abs c.rest.0 ≤ most_carried) × (c.allowed.0 ≤ most_allowed)) }
    ensures law { Continues carried.amount.0 result }
{
    let checked = CheckedFigures::new(figures)?;
    let settlement = Settlement::new(checked, carried)?;
    settlement.settle()
}
