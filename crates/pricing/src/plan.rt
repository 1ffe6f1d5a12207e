// What a draw takes of a side.
use crate::basis::Weights;
use crate::figures::SideLots;
use crate::relief::Relief;

// The weights and planned lots of a side's three elements, and its storage relief.
#[derive(Clone, Copy, PartialEq, Eq, Debug)]
pub struct SidePlan {
    pub weights: Weights,
    pub lots: SideLots,
    pub relief: Relief,
}
