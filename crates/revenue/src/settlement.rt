// What a period is settled on, and how.
ghost use Rattle.std.specs.Prelude.{◌≡◌, ◌<◌, ◌≤◌, pos, IfOk, MatchResult, unsigned_abs};
ghost use Rattle.terms.specs.Refusals.{Ruled};
ghost use Rattle.terms.specs.Faults.{book_refusal};
ghost use Rattle.terms.specs.declared.faults.BookFault.TheVariants.{BaseBelowZero};
ghost use Rattle.revenue.specs.Checks.{settling_rules};
ghost use Rattle.revenue.specs.Closings.{costs, revenues, base_of, correction_of, due_of, limit_of, taken_of, rest_of, allowed_of, settled};
ghost use Rattle.revenue.specs.Limits.{most_base, most_due};

use crate::carried::Carried;
use crate::checked::CheckedFigures;
use crate::figures::Closing;
use terms::faults::BookFault;
use terms::measures::Dinars;

// The largest allowed revenue, in thousands of dinars. It is pricing's largest amount too; the two crates do not know one another.
const MOST_ALLOWED: u64 = 10_000_000;

// A base, the correction, and what is due to be taken in: the correction and what was carried.
#[derive(Clone, Copy)]
pub(crate) struct Settlement {
    base: Dinars<u64>,
    correction: Dinars<i64>,
    due: Dinars<i64>,
    ghost base_bounded: { base.0 ≤ most_base },
    ghost due_bounded: { unsigned_abs due.0 ≤ most_due },
}

impl Settlement {
    // What figures come to with the amount that is carried on to them. A base below 0 is refused.
    pub(crate) fn new(checked: CheckedFigures, carried: Carried) -> Result<Settlement, BookFault>
        ensures low { MatchResult result (λ _. revenues checked.figures ≤ costs checked.figures) (λ e. (costs checked.figures < revenues checked.figures) × (e ≡ BaseBelowZero)) }
        ensures base { IfOk result (λ s. s.base.0 ≡ base_of checked.figures) }
        ensures correction { IfOk result (λ s. s.correction.0 ≡ correction_of checked.figures) }
        ensures due { IfOk result (λ s. s.due.0 ≡ due_of carried.amount.0 checked.figures) }
    {
        let base = checked.base().ok_or(BookFault::BaseBelowZero)?;
        let correction = checked.correction();
        Ok(Settlement {
            base: Dinars(base),
            correction: Dinars(correction),
            due: Dinars(carried.amount().0 + correction),
        })
    }

    // The most that may be taken in, up or down.
    fn limit(self) -> i64
        ensures { result ≡ pos (limit_of self.base.0) }
    {
        (3 * self.base.0 / 10) as i64
    }

    // What of the amount that is due is taken in.
    fn taken(self) -> i64
        ensures value { result ≡ taken_of self.base.0 self.due.0 }
        ensures bound { unsigned_abs result ≤ self.base.0 }
    {
        let limit = self.limit();
        self.due.0.clamp(-limit, limit)
    }

    // What is left of it, to be carried on.
    fn rest(self) -> i64
        ensures { result ≡ rest_of self.base.0 self.due.0 }
    {
        self.due.0 - self.taken()
    }

    // The base and what is taken in.
    fn allowed(self) -> u64
        ensures { result ≡ allowed_of self.base.0 self.due.0 }
    {
        (self.base.0 as i64 + self.taken()) as u64
    }

    // Takes in what may be taken in. What would be carried on is held to its limit first, then the allowed revenue.
    pub(crate) fn settle(self) -> Result<Closing, BookFault>
        ensures { Ruled book_refusal (settling_rules self.base.0 self.due.0) (settled self.base.0 self.correction.0 self.due.0) result }
    {
        let rest = Carried::new(Dinars(self.rest())).ok_or(BookFault::CarriedTooLarge)?;
        let allowed = self.allowed();
        if allowed > MOST_ALLOWED {
            return Err(BookFault::AllowedTooLarge);
        }
        Ok(Closing {
            base: self.base,
            correction: self.correction,
            taken: Dinars(self.taken()),
            rest: rest.amount(),
            allowed: Dinars(allowed),
        })
    }
}
