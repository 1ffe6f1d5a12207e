// The measures. Each is a type of its own, so none is taken for another.

// Money, in whole thousands of RSD: `Dinars<u64>` where an amount is never negative, `Dinars<i64>` for corrections and carried amounts.
#[derive(Clone, Copy, PartialEq, Eq, Debug)]
pub struct Dinars<N>(pub N);

// Capacity, in lots of 10,000 kWh/day.
#[derive(Clone, Copy, PartialEq, Eq, Debug)]
pub struct Lots(pub u32);

// A distance, in whole kilometres.
#[derive(Clone, Copy, PartialEq, Eq, Debug)]
pub struct Km(pub u32);

// A price, in steps of 0.0001 RSD per kWh/day for the product's term: one step times one lot is 1 RSD.
#[derive(Clone, Copy, PartialEq, Eq, Debug)]
pub struct PriceSteps(pub u64);
