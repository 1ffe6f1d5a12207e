ghost use Rattle.std.specs.Prelude.{◌≡◌, MatchOption};
ghost use Rattle.pricing.specs.Shares.{basis, others, HasShares};

use crate::amount::Amount;
use crate::basis::Weights;
use crate::relief::Relief;

// A side that has exact shares: some element other than storage has weight, so that there is someone to hand a release on to.
#[derive(Drop)]
pub struct Sharing {
    pub(crate) amount: Amount,
    pub(crate) weights: Weights,
    pub(crate) relief: Relief,
    ghost shared: { HasShares (basis amount.dinars.0 weights relief.parts) },
}

impl Sharing {
    // The side, or none where it has no exact shares.
    pub fn new(amount: Amount, weights: Weights, relief: Relief) -> Option<Sharing>
        ensures { MatchOption result (others (basis amount.dinars.0 weights relief.parts) ≡ 0) (λ s. (s.amount ≡ amount) × (s.weights ≡ weights) × (s.relief ≡ relief)) }
    {
        if weights.main == 0 && weights.other == 0 {
            return None;
        }
        Some(Sharing {
            amount,
            weights,
            relief,
        })
    }
}
