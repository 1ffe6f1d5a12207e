ghost use Rattle.std.specs.Prelude.{◌≡◌, ◌<◌, ◌≤◌};
ghost use Rattle.pricing.specs.Limits.{longest_year};

// The days that a year is counted with: some, and no more than a leap year has.
#[derive(Clone, Copy)]
pub(crate) struct Year {
    days: u64,
    ghost some: { 0 < days },
    ghost short: { days ≤ longest_year },
}

impl Year {
    // A gas year.
    pub(crate) const GAS: Year = Year { days: 365 };

    pub(crate) fn days(self) -> u64
        ensures value { result ≡ self.days }
        ensures some { 0 < result }
        ensures short { result ≤ longest_year }
    {
        self.days
    }
}
