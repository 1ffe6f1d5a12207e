ghost use Rattle.std.specs.Prelude.{◌≡◌, ◌<◌, ◌≤◌, pos, MatchOption, unsigned_abs};
ghost use Rattle.revenue.specs.Limits.{most_carried};

use terms::measures::Dinars;

// The largest amount that may be carried on, up or down.
const MOST_CARRIED: u64 = 100_000_000;

// An amount that is carried from one period to the next: at most 100,000,000 thousand dinars, up or down.
#[derive(Clone, Copy, PartialEq, Eq, Debug)]
pub struct Carried {
    amount: Dinars<i64>,
    ghost within: { unsigned_abs amount.0 ≤ most_carried },
}

impl Carried {
    pub fn new(amount: Dinars<i64>) -> Option<Carried>
        ensures { MatchOption result (most_carried < unsigned_abs amount.0) (λ c. c.amount ≡ amount) }
    {
        if amount.0.unsigned_abs() > MOST_CARRIED {
            return None;
        }
        Some(Carried { amount })
    }

    // Nothing is carried on to the first period.
    pub fn nothing() -> Carried
        ensures { result.amount.0 ≡ pos 0 }
    {
        Carried { amount: Dinars(0) }
    }

    pub fn amount(self) -> Dinars<i64>
        ensures value { result ≡ self.amount }
        ensures within { unsigned_abs result.0 ≤ most_carried }
    {
        self.amount
    }
}
