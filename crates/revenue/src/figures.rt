// What a closing is worked from, and what it gives.
use crate::units::{HundredThousandths, HundredthsOfPercent, MegawattHours, ParasPerKwh};
use terms::measures::Dinars;

// The twelve figures of a closing, in the order of the rules.
#[derive(Clone, Copy, PartialEq, Eq, Debug)]
pub struct Figures {
    // 1. operating costs
    pub operating: Dinars<u64>,
    // 2. depreciation
    pub depreciation: Dinars<u64>,
    // 3. regulated assets
    pub assets: Dinars<u64>,
    // 4. rate of return on the assets
    pub rate: HundredthsOfPercent<u64>,
    // 5. delivered gas
    pub delivered: MegawattHours,
    // 6. loss rate: the share of the gas taken in that is lost on the way
    pub loss: HundredThousandths,
    // 7. price of the gas that makes up for the loss
    pub price: ParasPerKwh,
    // 8. revenue from non-standard services
    pub nonstandard: Dinars<u64>,
    // 9. other revenue
    pub other: Dinars<u64>,
    // 10. revenue that was justified in the period that is corrected
    pub justified: Dinars<u64>,
    // 11. revenue that was realised in it
    pub realised: Dinars<u64>,
    // 12. consumer index by which the difference of the two is carried forward
    pub index: HundredthsOfPercent<i64>,
}

// What a closing gives.
#[derive(Clone, Copy, PartialEq, Eq, Debug)]
pub struct Closing {
    // costs less the revenues from elsewhere
    pub base: Dinars<u64>,
    // what the period before was paid too little, or too much
    pub correction: Dinars<i64>,
    // what of the correction, and of what was carried, this period takes in
    pub taken: Dinars<i64>,
    // what is carried on
    pub rest: Dinars<i64>,
    // base and amount taken in
    pub allowed: Dinars<u64>,
}
