// The figures of a draft: shares, tariffs, and the lots that the tariffs are for.
use crate::elements::Elements;
use terms::measures::{Dinars, Lots, PriceSteps};

// The planned lots of a side's elements.
pub type SideLots = Elements<Lots>;

// The share of an element, and its tariff. An element without lots has no tariff, which is not a tariff of 0.
#[derive(Clone, Copy, PartialEq, Eq, Debug)]
pub struct ElementFigures {
    pub share: Dinars<u64>,
    pub tariff: Option<PriceSteps>,
}

// Those of a side's elements.
pub type SideFigures = Elements<ElementFigures>;

// The six of a draft. They are to look at: nobody can approve, price or print from them.
#[derive(Clone, Copy, PartialEq, Eq, Debug)]
pub struct TariffFigures {
    pub entries: SideFigures,
    pub exits: SideFigures,
}
