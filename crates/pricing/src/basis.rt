// What the shares of a side are worked from.
use crate::elements::Elements;

// The weights of a side's elements.
pub type Weights = Elements<u64>;
