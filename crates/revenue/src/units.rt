// The units of a closing's figures that are not money.

// A rate in hundredths of a percent: unsigned for the rate of return, signed for the consumer index.
#[derive(Clone, Copy, PartialEq, Eq, Debug)]
pub struct HundredthsOfPercent<N>(pub N);

// Energy, in MWh.
#[derive(Clone, Copy, PartialEq, Eq, Debug)]
pub struct MegawattHours(pub u64);

// A share in hundred-thousandths.
#[derive(Clone, Copy, PartialEq, Eq, Debug)]
pub struct HundredThousandths(pub u64);

// A price of gas, in paras (0.01 RSD) per kWh.
#[derive(Clone, Copy, PartialEq, Eq, Debug)]
pub struct ParasPerKwh(pub u64);
