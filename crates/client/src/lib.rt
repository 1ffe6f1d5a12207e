//! A client that keeps to the protocol of prices: a release is handed on once, and what is priced or printed was approved.
//! `misuse/` holds the ways to break it as patches of this file: none of them compiles.
#![tactic(auto)]

ghost use Rattle.std.specs.Prelude.{◌≡◌, ◌+◌, IfOk, string_bytes, MatchOption};
ghost use Rattle.terms.specs.Faults.{book_refusal};
ghost use Rattle.terms.specs.Refusals.{Ruled};
ghost use Rattle.pricing.specs.Limits.{year_days};
ghost use Rattle.pricing.specs.Lines.{decision_text};
ghost use Rattle.pricing.specs.Prices.{tariff_in, price_rules, price_in};
ghost use Rattle.pricing.specs.Shares.{basis, shares_of};
ghost use Rattle.pricing.specs.Tariffs.{steps, steps_of};

use pricing::amount::Amount;
use pricing::basis::Weights;
use pricing::decision::Draft;
use pricing::elements::Elements;
use pricing::products::Product;
use pricing::release::{hand_on, storage_share};
use pricing::relief::Relief;
use pricing::sharing::Sharing;
use std::alloc::{AllocError, Global};
use terms::faults::BookFault;
use terms::measures::{Dinars, PriceSteps};
use terms::points::{Kind, Side};

// The shares of a side's elements.
pub fn shares(amount: Amount, weights: Weights, relief: Relief) -> Option<Elements<Dinars<u64>>>
    ensures { MatchOption result (weights.main + weights.other ≡ 0) (λ s. (s ≡ shares_of (basis amount.dinars.0 weights relief.parts)) × (s.main.0 + s.other.0 + s.storage.0 ≡ amount.dinars.0)) }
{
    let side = Sharing::new(amount, weights, relief)?;
    let (storage, release) = storage_share(side);
    let (main, other) = hand_on(release);
    Some(Elements {
        main,
        other,
        storage,
    })
}

// What a draft would charge for a product, once it is approved.
pub fn approved_price(
    draft: Draft,
    side: Side,
    kind: Kind,
    product: Product,
    multiplier: u32,
) -> Result<PriceSteps, BookFault>
    ensures { Ruled book_refusal (price_rules draft.figures side kind product multiplier) (steps (price_in year_days multiplier (steps_of (tariff_in draft.figures side kind)) product)) result }
{
    let decision = draft.approve();
    decision.price(side, kind, product, multiplier)
}

// The lines of a draft, once it is approved.
pub fn approved_lines(heap: Global, draft: Draft) -> Result<String, AllocError>
    ensures { IfOk result (λ s. string_bytes s ≡ decision_text draft.figures) }
{
    let decision = draft.approve();
    decision.lines(heap)
}
