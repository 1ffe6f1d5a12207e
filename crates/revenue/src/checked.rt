// Figures that are in their ranges, and what they come to.
ghost use Rattle.std.specs.Prelude.{◌≡◌, ◌*◌, ◌<◌, ◌≤◌, pos, ◌+ℤ◌, ◌-ℤ◌, IfSome, MatchOption, MatchResult, find, unsigned_abs};
ghost use Rattle.std.specs.Int.NonZero.{non_zero_u64_get};
ghost use Rattle.std.specs.Option.{option_map};
ghost use Rattle.terms.specs.Refusals.{FirstBroken, NoneBroken};
ghost use Rattle.terms.specs.Faults.{book_refusal};
ghost use Rattle.terms.specs.Rounding.{nearest};
ghost use Rattle.terms.specs.declared.faults.BookFault.TheVariants.{OutOfRange};
ghost use Rattle.revenue.specs.Checks.{figure_rules, InRange};
ghost use Rattle.revenue.specs.Closings.{costs, revenues, base_of, correction_of};
ghost use Rattle.revenue.specs.Limits.{most_money, most_base, most_correction};

use crate::figures::Figures;
use std::num::NonZeroU64;
use terms::faults::{BookFault, ClosingFigure};
use terms::measures::Dinars;
use terms::rounding::{to_nearest, to_nearest_signed};

// The largest sum of money among the figures, but for the assets, in thousands of dinars.
const MOST_MONEY: u64 = 10_000_000;
// The largest regulated assets.
const MOST_ASSETS: u64 = 100_000_000;
// 30 %, in hundredths of a percent.
const MOST_RATE: u64 = 3_000;
// The most gas that is delivered in a period, in MWh.
const MOST_DELIVERED: u64 = 50_000_000;
// A tenth, in hundred-thousandths: so what the loss is divided by is never 0.
const MOST_LOSS: u64 = 10_000;
// 100 RSD per kWh, in paras.
const MOST_PRICE: u64 = 10_000;
// -20 %, in hundredths of a percent.
const LEAST_INDEX: i64 = -2_000;
// 100 %.
const MOST_INDEX: i64 = 10_000;

// The twelve figures of a closing, each in its range.
#[derive(Clone, Copy)]
pub(crate) struct CheckedFigures {
    figures: Figures,
    ghost in_range: { InRange figures },
}

// The figure of the first row that is marked. The check finds the chain where it is a function of its own.
fn first_marked(rows: &[(ClosingFigure, bool)]) -> Option<ClosingFigure>
    ensures { result ≡ option_map (λ r. r.0) (find (λ r. r.1) rows.now) }
{
    rows.iter().find(|r| r.1).map(|r| r.0)
}

// The first figure that is out of its range.
fn first_out_of_range(f: Figures) -> Option<ClosingFigure>
    ensures { MatchOption result (NoneBroken (figure_rules f)) (λ k. FirstBroken (figure_rules f) (book_refusal (OutOfRange k))) }
{
    first_marked(&[
        (ClosingFigure::Operating, f.operating.0 > MOST_MONEY),
        (ClosingFigure::Depreciation, f.depreciation.0 > MOST_MONEY),
        (ClosingFigure::Assets, f.assets.0 > MOST_ASSETS),
        (ClosingFigure::Rate, f.rate.0 > MOST_RATE),
        (ClosingFigure::Delivered, f.delivered.0 > MOST_DELIVERED),
        (ClosingFigure::Loss, f.loss.0 > MOST_LOSS),
        (ClosingFigure::GasPrice, f.price.0 > MOST_PRICE),
        (ClosingFigure::NonStandard, f.nonstandard.0 > MOST_MONEY),
        (ClosingFigure::OtherRevenue, f.other.0 > MOST_MONEY),
        (ClosingFigure::Justified, f.justified.0 > MOST_MONEY),
        (ClosingFigure::Realised, f.realised.0 > MOST_MONEY),
        (
            ClosingFigure::Index,
            !(LEAST_INDEX..=MOST_INDEX).contains(&f.index.0),
        ),
    ])
}

// A divisor that is known to be above 0.
fn divisor(by: u64) -> NonZeroU64
    requires { 0 < by }
    ensures { non_zero_u64_get result ≡ by }
{
    NonZeroU64::new(by).unwrap()
}

// a * b / by, to the nearest whole. The bounds stand in the clauses: a type for them would be made thrice, for this one use.
fn scaled(a: u64, b: u64, by: u64) -> u64
    requires few { a ≤ 1000000000000 }
    requires small { b ≤ 10000 }
    requires some { 0 < by }
    ensures value { result ≡ nearest (a * b) by }
    ensures bound { result ≤ 10000 * a }
{
    to_nearest(a * b, divisor(by))
}

impl CheckedFigures {
    // The figures, or the fault of the first that is out of its range.
    pub(crate) fn new(figures: Figures) -> Result<CheckedFigures, BookFault>
        ensures { MatchResult result (λ r. NoneBroken (figure_rules figures) × (r.figures ≡ figures)) (λ e. FirstBroken (figure_rules figures) (book_refusal e)) }
    {
        // A match, since the value may be made only where no figure is out of its range.
        match first_out_of_range(figures) {
            Some(figure) => Err(BookFault::OutOfRange(figure)),
            None => Ok(CheckedFigures { figures }),
        }
    }

    fn costs(self) -> u64
        ensures value { result ≡ costs self.figures }
        ensures bound { result ≤ most_base }
    {
        let f = self.figures;
        let assets_return = scaled(f.assets.0, f.rate.0, 10_000);
        let loss_gas = scaled(f.delivered.0, f.loss.0, 100_000 - f.loss.0);
        let loss_cost = scaled(loss_gas, f.price.0, 100);
        f.operating.0 + f.depreciation.0 + assets_return + loss_cost
    }

    // What is earned otherwise than by tariffs.
    fn revenues(self) -> u64
        ensures { result ≡ revenues self.figures }
    {
        self.figures.nonstandard.0 + self.figures.other.0
    }

    // The costs less the revenues, or none where that is below 0.
    pub(crate) fn base(self) -> Option<u64>
        ensures value { MatchOption result (costs self.figures < revenues self.figures) (λ b. (revenues self.figures ≤ costs self.figures) × (b ≡ base_of self.figures)) }
        ensures bound { IfSome result (λ b. b ≤ most_base) }
    {
        self.costs().checked_sub(self.revenues())
    }

    // What was justified less what was realised.
    fn difference(self) -> i64
        ensures value { result ≡ pos self.figures.justified.0 -ℤ pos self.figures.realised.0 }
        ensures bound { unsigned_abs result ≤ most_money }
    {
        self.figures.justified.0 as i64 - self.figures.realised.0 as i64
    }

    // What an amount of 10,000 is worth with the index on it.
    fn factor(self) -> i64
        ensures value { result ≡ pos 10000 +ℤ self.figures.index.0 }
        ensures bound { unsigned_abs result ≤ 20000 }
    {
        10_000 + self.figures.index.0
    }

    // The difference with the index on it; a half goes away from 0.
    pub(crate) fn correction(self) -> i64
        ensures value { result ≡ correction_of self.figures }
        ensures bound { unsigned_abs result ≤ most_correction }
    {
        to_nearest_signed(self.difference() * self.factor(), divisor(10_000))
    }
}
