// Short prices of an approved decision.
ghost use Rattle.std.specs.Prelude.{◌≡◌, ℕ, ◌<◌, ◌≤◌};
ghost use Rattle.terms.specs.Faults.{book_refusal};
ghost use Rattle.terms.specs.Refusals.{Ruled};
ghost use Rattle.pricing.specs.Limits.{most_tariff, most_by_day, year_days};
ghost use Rattle.pricing.specs.Tariffs.{steps, steps_of};
ghost use Rattle.pricing.specs.Products.{Exists};
ghost use Rattle.pricing.specs.Prices.{tariff_in, price_rules, price_in, PriceLaw};

use crate::decision::Approved;
use crate::figures::TariffFigures;
use crate::products::{MULTIPLIER_ONE, Product};
use crate::year::Year;
use std::num::NonZeroU64;
use terms::faults::BookFault;
use terms::measures::PriceSteps;
use terms::points::{Kind, Side};
use terms::rounding::to_nearest;

// The price of a product at a yearly tariff and a multiplier in hundredths.
fn short_price(tariff: PriceSteps, product: Product, multiplier: u32, year: Year) -> PriceSteps
    requires bounded { tariff.0 ≤ most_tariff }
    requires exists { Exists product }
    requires ranged { multiplier ≤ most_by_day }
    ensures { result.0 ≡ price_in year.days multiplier tariff.0 product }
{
    let exact = multiplier as u64 * tariff.0 * product.runs(year);
    let by = NonZeroU64::new(MULTIPLIER_ONE as u64 * product.term.year_in(year)).unwrap();
    PriceSteps(to_nearest(exact, by))
}

impl Approved {
    // The tariff of an element; none also where the kind is not of that side.
    fn tariff_of(&self, side: Side, kind: Kind) -> Option<PriceSteps>
        ensures value { result ≡ tariff_in self.now.draft.figures side kind }
        ensures bound { steps_of result ≤ most_tariff }
    {
        let TariffFigures { entries, exits } = self.draft.figures;
        match (side, kind) {
            (Side::Entry, Kind::Transmission) => entries.main.tariff,
            (Side::Entry, Kind::Production) => entries.other.tariff,
            (Side::Entry, Kind::Storage) => entries.storage.tariff,
            (Side::Exit, Kind::Local) => exits.main.tariff,
            (Side::Exit, Kind::Interconnector) => exits.other.tariff,
            (Side::Exit, Kind::Storage) => exits.storage.tariff,
            _ => None,
        }
    }

    // The price, or the first rule that it breaks.
    fn priced(
        &self,
        side: Side,
        kind: Kind,
        product: Product,
        multiplier: u32,
    ) -> Result<PriceSteps, BookFault>
        ensures { Ruled book_refusal (price_rules self.now.draft.figures side kind product multiplier) (steps (price_in year_days multiplier (steps_of (tariff_in self.now.draft.figures side kind)) product)) result }
    {
        if !kind.is_of(side) {
            return Err(BookFault::KindNotOfSide);
        }
        if !product.exists() {
            return Err(BookFault::NoProduct);
        }
        if !product.term.takes(multiplier) {
            return Err(BookFault::MultiplierOutOfRange);
        }
        let tariff = self.tariff_of(side, kind).ok_or(BookFault::NoTariff)?;
        Ok(short_price(tariff, product, multiplier, Year::GAS))
    }

    // The price of an element's capacity for a product, at a multiplier in hundredths, which is given with the price and is no part of the product.
    pub fn price(
        &self,
        side: Side,
        kind: Kind,
        product: Product,
        multiplier: u32,
    ) -> Result<PriceSteps, BookFault>
        ensures priced { Ruled book_refusal (price_rules self.now.draft.figures side kind product multiplier) (steps (price_in year_days multiplier (steps_of (tariff_in self.now.draft.figures side kind)) product)) result }
        ensures lawful { (year : ℕ) → 0 < year → PriceLaw year multiplier (steps_of (tariff_in self.now.draft.figures side kind)) product }
    {
        self.priced(side, kind, product, multiplier)
    }
}
