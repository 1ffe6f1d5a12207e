use crate::amount::{Amount, halve};
use crate::basis::Weights;
use crate::decision::{Draft, draw};
use crate::figures::{ElementFigures, SideFigures, SideLots, TariffFigures};
use crate::plan::SidePlan;
use crate::products::{Product, Term};
use crate::relief::Relief;
use std::test::Fail;
use terms::faults::BookFault;
use terms::measures::{Dinars, Lots, PriceSteps};
use terms::points::{Kind, Side, UnknownLetter};

// A side's plan: weights and lots of main, other and storage, and the relief.
fn plan(weights: (u64, u64, u64), lots: (u32, u32, u32), relief: u32) -> Result<SidePlan, Fail> {
    Ok(SidePlan {
        weights: Weights {
            main: weights.0,
            other: weights.1,
            storage: weights.2,
        },
        lots: SideLots {
            main: Lots(lots.0),
            other: Lots(lots.1),
            storage: Lots(lots.2),
        },
        relief: Relief::new(relief).ok_or(relief)?,
    })
}

fn element(share: u64, tariff: Option<u64>) -> ElementFigures {
    ElementFigures {
        share: Dinars(share),
        tariff: tariff.map(PriceSteps),
    }
}

fn drawn(allowed: u64, entries: SidePlan, exits: SidePlan) -> Result<Draft, Fail> {
    let allowed = Amount::new(Dinars(allowed)).ok_or(allowed)?;
    Ok(draw(allowed, entries, exits)?)
}

// Why nothing is drawn, if nothing is.
fn refusal(allowed: u64, entries: SidePlan, exits: SidePlan) -> Result<Option<BookFault>, Fail> {
    let allowed = Amount::new(Dinars(allowed)).ok_or(allowed)?;
    Ok(draw(allowed, entries, exits).err())
}

fn product(term: Term, number: u32) -> Product {
    Product { term, number }
}

fn numbered_to(term: Term, last: u32) -> bool {
    product(term, last).exists() && !product(term, last.saturating_add(1)).exists()
}

fn takes_up_to(term: Term, most: u32) -> bool {
    term.takes(most) && !term.takes(most.saturating_add(1))
}

// The grid of the worked example, with an allowed revenue of 9,001.
fn worked() -> Result<Draft, Fail> {
    let entries = plan((11_100_000, 0, 2_100_000), (300, 0, 100), 7_500)?;
    let exits = plan((12_600_000, 0, 600_000), (350, 0, 50), 5_000)?;
    drawn(9_001, entries, exits)
}

// What it charges for capacity of an entry element.
fn asked(
    kind: Kind,
    term: Term,
    number: u32,
    multiplier: u32,
) -> Result<Result<PriceSteps, BookFault>, Fail> {
    let decision = worked()?.approve();
    Ok(decision.price(Side::Entry, kind, product(term, number), multiplier))
}

#[test]
fn the_worked_example_gives_its_shares_and_tariffs(rt: HostRuntime) -> Result<(), Fail> {
    let entries = SideFigures {
        main: element(4_321, Some(14_403)),
        other: element(0, None),
        storage: element(179, Some(1_790)),
    };
    let exits = SideFigures {
        main: element(4_399, Some(12_569)),
        other: element(0, None),
        storage: element(102, Some(2_040)),
    };
    assert_eq!(rt; worked()?.figures(), TariffFigures { entries, exits });
    Ok(())
}

#[test]
fn an_approved_decision_prints_six_lines(rt: HostRuntime) -> Result<(), Fail> {
    let text = worked()?.approve().lines(rt.alloc())?;
    assert_eq!(rt;
        text.as_str(),
        "E T 4321 14403\nE P 0 -\nE S 179 1790\nX L 4399 12569\nX I 0 -\nX S 102 2040\n"
    );
    Ok(())
}

#[test]
fn half_a_step_goes_up_and_less_goes_down(rt: HostRuntime) -> Result<(), Fail> {
    let of_one = plan((1, 0, 0), (2_000, 0, 0), 0)?;
    let of_less = plan((1, 0, 0), (2_001, 0, 0), 0)?;
    let figures = drawn(2, of_one, of_less)?.figures();
    assert_eq!(rt; figures.entries.main, element(1, Some(1)));
    assert_eq!(rt; figures.exits.main, element(1, Some(0)));
    Ok(())
}

#[test]
fn before_the_first_closing_every_share_is_0(rt: HostRuntime) -> Result<(), Fail> {
    let side = plan((1, 1, 1), (1, 1, 0), 0)?;
    let figures = draw(Amount::ZERO, side, side)?.figures();
    assert_eq!(rt; figures.entries.main, element(0, Some(0)));
    assert_eq!(rt; figures.exits.storage, element(0, None));
    Ok(())
}

#[test]
fn an_odd_thousand_goes_to_the_exits(rt: HostRuntime) {
    let (entries, exits) = halve(Dinars(9_001));
    assert_eq!(rt; entries, Dinars(4_500));
    assert_eq!(rt; exits, Dinars(4_501));
}

#[test]
fn a_relief_leaves_storage_all_or_nothing(rt: HostRuntime) -> Result<(), Fail> {
    let unrelieved = plan((1, 1, 2), (1, 1, 1), 0)?;
    let relieved = plan((1, 1, 2), (1, 1, 1), 10_000)?;
    let figures = drawn(202, unrelieved, relieved)?.figures();
    assert_eq!(rt; figures.entries.storage, element(50, Some(50_000)));
    assert_eq!(rt; figures.entries.main, element(25, Some(25_000)));
    assert_eq!(rt; figures.entries.other, element(26, Some(26_000)));
    assert_eq!(rt; figures.exits.storage, element(0, Some(0)));
    assert_eq!(rt; figures.exits.main, element(50, Some(50_000)));
    assert_eq!(rt; figures.exits.other, element(51, Some(51_000)));
    Ok(())
}

#[test]
fn an_element_with_lots_and_no_weight_has_the_tariff_0(rt: HostRuntime) -> Result<(), Fail> {
    let side = plan((1, 0, 0), (1, 7, 0), 0)?;
    let figures = drawn(10, side, side)?.figures();
    assert_eq!(rt; figures.entries.other, element(0, Some(0)));
    assert_eq!(rt; figures.entries.storage, element(0, None));
    Ok(())
}

#[test]
fn storage_alone_on_a_side_has_no_shares(rt: HostRuntime) -> Result<(), Fail> {
    let storage = plan((0, 0, 5), (0, 0, 1), 5_000)?;
    let side = plan((5, 0, 0), (1, 0, 0), 5_000)?;
    assert_eq!(rt;
        refusal(10, storage, storage)?,
        Some(BookFault::NoEntryShares)
    );
    assert_eq!(rt; refusal(10, side, storage)?, Some(BookFault::NoExitShares));
    assert_eq!(rt; refusal(10, side, side)?, None);
    Ok(())
}

#[test]
fn the_largest_figures_are_shared_out_whole(rt: HostRuntime) -> Result<(), Fail> {
    let most: u64 = 40_000 * 40_000 * 9_999;
    let side = plan((most, most, most), (1, 1, 1), 3_333)?;
    let figures = drawn(10_000_000, side, side)?.figures();
    assert_eq!(rt;
        figures.entries.main,
        element(1_944_416, Some(1_944_416_000))
    );
    assert_eq!(rt;
        figures.entries.other,
        element(1_944_417, Some(1_944_417_000))
    );
    assert_eq!(rt;
        figures.entries.storage,
        element(1_111_167, Some(1_111_167_000))
    );
    Ok(())
}

#[test]
fn limits_are_kept_at_their_edges(rt: HostRuntime) {
    assert!(rt; Amount::new(Dinars(10_000_000)).is_some());
    assert!(rt; Amount::new(Dinars(10_000_001)).is_none());
    assert!(rt; Relief::new(10_000).is_some());
    assert!(rt; Relief::new(10_001).is_none());
    assert_eq!(rt; Relief::NONE.get(), 0);
}

#[test]
fn prices_of_the_worked_example(rt: HostRuntime) -> Result<(), Fail> {
    assert_eq!(rt;
        asked(Kind::Transmission, Term::Quarter, 0, 125)?,
        Ok(PriceSteps(4_538))
    );
    assert_eq!(rt;
        asked(Kind::Transmission, Term::Year, 0, 100)?,
        Ok(PriceSteps(14_403))
    );
    assert_eq!(rt;
        asked(Kind::Transmission, Term::Month, 4, 120)?,
        Ok(PriceSteps(1_326))
    );
    assert_eq!(rt;
        asked(Kind::Transmission, Term::Day, 0, 200)?,
        Ok(PriceSteps(79))
    );
    assert_eq!(rt;
        asked(Kind::Transmission, Term::Hours, 6, 220)?,
        Ok(PriceSteps(22))
    );
    Ok(())
}

#[test]
fn a_price_is_refused_by_its_first_broken_rule(rt: HostRuntime) -> Result<(), Fail> {
    assert_eq!(rt;
        asked(Kind::Local, Term::Quarter, 4, 99)?,
        Err(BookFault::KindNotOfSide)
    );
    assert_eq!(rt;
        asked(Kind::Production, Term::Quarter, 4, 99)?,
        Err(BookFault::NoProduct)
    );
    assert_eq!(rt;
        asked(Kind::Production, Term::Quarter, 3, 99)?,
        Err(BookFault::MultiplierOutOfRange)
    );
    assert_eq!(rt;
        asked(Kind::Production, Term::Quarter, 3, 100)?,
        Err(BookFault::NoTariff)
    );
    Ok(())
}

#[test]
fn products_and_multipliers_end_at_their_edges(rt: HostRuntime) {
    assert!(rt; numbered_to(Term::Year, 0));
    assert!(rt; numbered_to(Term::Quarter, 3));
    assert!(rt; numbered_to(Term::Month, 11));
    assert!(rt; numbered_to(Term::Day, 0));
    assert!(rt; numbered_to(Term::Hours, 24));
    assert!(rt; !product(Term::Hours, 0).exists());
    assert!(rt; takes_up_to(Term::Year, 100));
    assert!(rt; takes_up_to(Term::Quarter, 150));
    assert!(rt; takes_up_to(Term::Month, 150));
    assert!(rt; takes_up_to(Term::Day, 300));
    assert!(rt; takes_up_to(Term::Hours, 300));
    assert!(rt; !Term::Hours.takes(99));
}

#[test]
fn letters_of_terms_go_both_ways(rt: HostRuntime) {
    assert_eq!(rt; Term::try_from('H'), Ok(Term::Hours));
    assert_eq!(rt; Term::try_from('h'), Err(UnknownLetter('h')));
    assert_eq!(rt; char::from(Term::Month), 'M');
}
