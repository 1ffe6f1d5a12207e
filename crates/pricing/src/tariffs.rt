// The shares and tariffs of a side.
ghost use Rattle.std.specs.Prelude.{◌≡◌, ◌≤◌, MatchOption};
ghost use Rattle.pricing.specs.Limits.{most_amount, most_tariff};
ghost use Rattle.pricing.specs.Shares.{basis, others, HasShares};
ghost use Rattle.pricing.specs.Sides.{base_of};
ghost use Rattle.pricing.specs.Tariffs.{element_of, side_of, steps_of, highest};

use crate::amount::Amount;
use crate::figures::{ElementFigures, SideFigures, SideLots};
use crate::plan::SidePlan;
use crate::release::{hand_on, storage_share};
use crate::sharing::Sharing;
use std::num::NonZeroU64;
use terms::measures::{Dinars, Lots, PriceSteps};
use terms::rounding::to_nearest;

// Money is in thousands of RSD, and one price step for one lot is 1 RSD.
const RSD_PER_THOUSAND: u64 = 1_000;

// An element's figures: its tariff is what its share comes to for each of its lots, and there is none without lots.
fn element(share: Dinars<u64>, lots: Lots) -> ElementFigures
    requires { share.0 ≤ most_amount }
    ensures value { result ≡ element_of share.0 lots }
    ensures bound { steps_of result.tariff ≤ most_tariff }
{
    let tariff = NonZeroU64::new(lots.0 as u64).map(|by| PriceSteps(to_nearest(
        RSD_PER_THOUSAND * share.0,
        by,
    )));
    ElementFigures { share, tariff }
}

// The shares and tariffs of a side: storage first, then the others with what storage released.
pub(crate) fn side_figures(side: Sharing, lots: SideLots) -> SideFigures
    ensures value { result ≡ side_of (base_of side) lots }
    ensures bound { highest result ≤ most_tariff }
{
    let (storage, release) = storage_share(side);
    let (main, other) = hand_on(release);
    SideFigures {
        main: element(main, lots.main),
        other: element(other, lots.other),
        storage: element(storage, lots.storage),
    }
}

impl SidePlan {
    // The side at its half of the allowed revenue, or none where it has no exact shares.
    pub(crate) fn sharing(self, half: Amount) -> Option<Sharing>
        ensures { let b = basis half.dinars.0 self.weights self.relief.parts in MatchOption result (others b ≡ 0) (λ s. HasShares b × (base_of s ≡ b)) }
    {
        Sharing::new(half, self.weights, self.relief)
    }
}
