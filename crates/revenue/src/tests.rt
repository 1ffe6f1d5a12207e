use crate::carried::Carried;
use crate::figures::{Closing, Figures};
use crate::period::close;
use crate::units::{HundredThousandths, HundredthsOfPercent, MegawattHours, ParasPerKwh};
use std::test::Fail;
use terms::faults::{BookFault, ClosingFigure, Fault};
use terms::measures::Dinars;
use terms::refusals::{Part, Refusal};

// A period's costs, with the revenues of the period that is corrected and the index.
fn worked(justified: u64, realised: u64, index: i64) -> Figures {
    Figures {
        operating: Dinars(6_000),
        depreciation: Dinars(1_000),
        assets: Dinars(20_000),
        rate: HundredthsOfPercent(800),
        delivered: MegawattHours(1_000_000),
        loss: HundredThousandths(100),
        price: ParasPerKwh(350),
        nonstandard: Dinars(1_500),
        other: Dinars(603),
        justified: Dinars(justified),
        realised: Dinars(realised),
        index: HundredthsOfPercent(index),
    }
}

// Operating costs alone.
fn bare(operating: u64) -> Figures {
    Figures {
        operating: Dinars(operating),
        depreciation: Dinars(0),
        assets: Dinars(0),
        rate: HundredthsOfPercent(0),
        delivered: MegawattHours(0),
        loss: HundredThousandths(0),
        price: ParasPerKwh(0),
        nonstandard: Dinars(0),
        other: Dinars(0),
        justified: Dinars(0),
        realised: Dinars(0),
        index: HundredthsOfPercent(0),
    }
}

fn carried(amount: i64) -> Result<Carried, Fail> {
    Ok(Carried::new(Dinars(amount)).ok_or("beyond the limits")?)
}

fn fault(figures: Figures, amount: i64) -> Result<Refusal, Fail> {
    let fault = close(figures, carried(amount)?)
        .err()
        .ok_or("the closing was not refused")?;
    Ok(fault.refusal())
}

fn accepted(figures: Figures, amount: i64) -> Result<Closing, Fail> {
    Ok(close(figures, carried(amount)?)?)
}

fn told(number: u32, place: usize) -> Refusal {
    Refusal {
        number,
        part: Part::Book,
        place,
    }
}

#[test]
fn the_worked_closing(rt: HostRuntime) -> Result<(), Fail> {
    assert_eq!(rt;
        accepted(worked(9_000, 10_000, 0), 0)?,
        Closing {
            base: Dinars(10_001),
            correction: Dinars(-1_000),
            taken: Dinars(-1_000),
            rest: Dinars(0),
            allowed: Dinars(9_001),
        }
    );
    Ok(())
}

#[test]
fn a_correction_over_the_limit_is_carried_on(rt: HostRuntime) -> Result<(), Fail> {
    assert_eq!(rt;
        accepted(worked(9_000, 14_000, 500), 0)?,
        Closing {
            base: Dinars(10_001),
            correction: Dinars(-5_250),
            taken: Dinars(-3_000),
            rest: Dinars(-2_250),
            allowed: Dinars(7_001),
        }
    );
    Ok(())
}

#[test]
fn a_negative_half_goes_away_from_zero(rt: HostRuntime) -> Result<(), Fail> {
    assert_eq!(rt;
        accepted(worked(9_999, 10_000, 5_000), 0)?.correction,
        Dinars(-2)
    );
    assert_eq!(rt;
        accepted(worked(10_000, 9_999, 5_000), 0)?.correction,
        Dinars(2)
    );
    Ok(())
}

#[test]
fn each_figure_is_refused_just_over_its_range(rt: HostRuntime) -> Result<(), Fail> {
    let mut f = bare(0);
    f.index = HundredthsOfPercent(10_001);
    assert_eq!(rt; fault(f, 0)?, told(9, 12));
    f.index = HundredthsOfPercent(-2_001);
    assert_eq!(rt; fault(f, 0)?, told(9, 12));
    f.realised = Dinars(10_000_001);
    assert_eq!(rt; fault(f, 0)?, told(9, 11));
    f.justified = Dinars(10_000_001);
    assert_eq!(rt; fault(f, 0)?, told(9, 10));
    f.other = Dinars(10_000_001);
    assert_eq!(rt; fault(f, 0)?, told(9, 9));
    f.nonstandard = Dinars(10_000_001);
    assert_eq!(rt; fault(f, 0)?, told(9, 8));
    f.price = ParasPerKwh(10_001);
    assert_eq!(rt; fault(f, 0)?, told(9, 7));
    f.loss = HundredThousandths(10_001);
    assert_eq!(rt; fault(f, 0)?, told(9, 6));
    f.delivered = MegawattHours(50_000_001);
    assert_eq!(rt; fault(f, 0)?, told(9, 5));
    f.rate = HundredthsOfPercent(3_001);
    assert_eq!(rt; fault(f, 0)?, told(9, 4));
    f.assets = Dinars(100_000_001);
    assert_eq!(rt; fault(f, 0)?, told(9, 3));
    f.depreciation = Dinars(10_000_001);
    assert_eq!(rt; fault(f, 0)?, told(9, 2));
    f.operating = Dinars(10_000_001);
    assert_eq!(rt; fault(f, 0)?, told(9, 1));
    Ok(())
}

#[test]
fn each_figure_is_taken_at_the_end_of_its_range(rt: HostRuntime) -> Result<(), Fail> {
    assert_eq!(rt; accepted(bare(10_000_000), 0)?.allowed, Dinars(10_000_000));
    let mut f = bare(0);
    f.index = HundredthsOfPercent(-2_000);
    f.justified = Dinars(10_000_000);
    assert_eq!(rt; accepted(f, 0)?.rest, Dinars(8_000_000));
    f.index = HundredthsOfPercent(10_000);
    f.justified = Dinars(0);
    f.realised = Dinars(10_000_000);
    assert_eq!(rt; accepted(f, 0)?.rest, Dinars(-20_000_000));
    f.depreciation = Dinars(10_000_000);
    f.other = Dinars(10_000_000);
    assert_eq!(rt; accepted(f, 0)?.base, Dinars(0));
    f.operating = Dinars(10_000_000);
    f.nonstandard = Dinars(10_000_000);
    assert_eq!(rt; accepted(f, 0)?.base, Dinars(0));
    Ok(())
}

#[test]
fn the_greatest_costs_at_once_do_not_wrap(rt: HostRuntime) -> Result<(), Fail> {
    let mut f = bare(10_000_000);
    f.depreciation = Dinars(10_000_000);
    f.assets = Dinars(100_000_000);
    f.rate = HundredthsOfPercent(3_000);
    f.delivered = MegawattHours(50_000_000);
    f.loss = HundredThousandths(10_000);
    f.price = ParasPerKwh(10_000);
    f.justified = Dinars(10_000_000);
    f.index = HundredthsOfPercent(10_000);
    assert_eq!(rt; fault(f, 100_000_000)?, told(12, 0));
    f.justified = Dinars(0);
    f.realised = Dinars(10_000_000);
    assert_eq!(rt; fault(f, -100_000_000)?, told(12, 0));
    Ok(())
}

#[test]
fn the_base_may_be_nothing_and_not_less(rt: HostRuntime) -> Result<(), Fail> {
    let mut f = bare(5);
    f.other = Dinars(5);
    assert_eq!(rt; accepted(f, 0)?.allowed, Dinars(0));
    f.nonstandard = Dinars(1);
    assert_eq!(rt; fault(f, 0)?, told(10, 0));
    Ok(())
}

#[test]
fn what_would_be_carried_on_is_held_to_its_limit(rt: HostRuntime) -> Result<(), Fail> {
    let mut f = bare(0);
    assert_eq!(rt; accepted(f, 100_000_000)?.rest, Dinars(100_000_000));
    assert_eq!(rt; accepted(f, -100_000_000)?.rest, Dinars(-100_000_000));
    f.justified = Dinars(1);
    assert_eq!(rt; fault(f, 100_000_000)?, told(11, 0));
    assert_eq!(rt; accepted(f, -100_000_000)?.rest, Dinars(-99_999_999));
    f.realised = Dinars(2);
    assert_eq!(rt; fault(f, -100_000_000)?, told(11, 0));
    Ok(())
}

#[test]
fn the_carried_amount_is_looked_at_before_the_allowed_revenue(rt: HostRuntime) -> Result<(), Fail> {
    let mut f = bare(10_000_000);
    assert_eq!(rt; accepted(f, 0)?.allowed, Dinars(10_000_000));
    f.depreciation = Dinars(1);
    assert_eq!(rt; fault(f, 0)?, told(12, 0));
    f.justified = Dinars(10_000_000);
    assert_eq!(rt; fault(f, 100_000_000)?, told(11, 0));
    Ok(())
}

#[test]
fn a_carried_amount_is_made_within_its_limits_only(rt: HostRuntime) -> Result<(), Fail> {
    assert_eq!(rt; carried(-100_000_000)?.amount(), Dinars(-100_000_000));
    assert_eq!(rt; Carried::new(Dinars(100_000_001)).is_some(), false);
    assert_eq!(rt; Carried::new(Dinars(-100_000_001)).is_some(), false);
    assert_eq!(rt; BookFault::OutOfRange(ClosingFigure::Loss).place(), 6);
    Ok(())
}
