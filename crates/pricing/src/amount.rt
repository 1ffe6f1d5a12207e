// Amounts within the limit, and the halves of the allowed revenue.
ghost use Rattle.std.specs.Prelude.{◌≡◌, ◌+◌, ◌<◌, ◌≤◌, MatchOption};
ghost use Rattle.pricing.specs.Limits.{most_amount};
ghost use Rattle.pricing.specs.Shares.{entries_half, exits_half};

use terms::measures::Dinars;

// The most that a period may be allowed, in thousands of RSD.
pub const MOST_AMOUNT: u64 = 10_000_000;

// Money that is no more than a period may be allowed.
// A type beside `Relief`: unit, width and limit differ, and one generic type of them would be longer than the two.
#[derive(Clone, Copy, PartialEq, Eq, Debug)]
pub struct Amount {
    dinars: Dinars<u64>,
    ghost bounded: { dinars.0 ≤ most_amount },
}

// The halves of the allowed revenue, entries first: theirs is rounded down, and exits get the rest.
pub fn halve(allowed: Dinars<u64>) -> (Dinars<u64>, Dinars<u64>)
    ensures entries { result.0.0 ≡ entries_half allowed.0 }
    ensures exits { result.1.0 ≡ exits_half allowed.0 }
    ensures whole { result.0.0 + result.1.0 ≡ allowed.0 }
{
    let entries = allowed.0 / 2;
    (Dinars(entries), Dinars(allowed.0 - entries))
}

impl Amount {
    // Nothing, which is allowed before the first closing.
    pub const ZERO: Amount = Amount { dinars: Dinars(0) };

    // The amount, or none where it is above the most.
    pub fn new(dinars: Dinars<u64>) -> Option<Amount>
        ensures { MatchOption result (most_amount < dinars.0) (λ a. a.dinars ≡ dinars) }
    {
        if dinars.0 > MOST_AMOUNT {
            None
        } else {
            Some(Amount { dinars })
        }
    }

    pub fn get(self) -> Dinars<u64>
        ensures value { result ≡ self.dinars }
        ensures bound { result.0 ≤ most_amount }
    {
        self.dinars
    }

    // Its halves, entries first.
    pub(crate) fn halves(self) -> (Amount, Amount)
        ensures entries { result.0.dinars.0 ≡ entries_half self.dinars.0 }
        ensures exits { result.1.dinars.0 ≡ exits_half self.dinars.0 }
    {
        let (entries, exits) = halve(self.dinars);
        (Amount { dinars: entries }, Amount { dinars: exits })
    }
}
