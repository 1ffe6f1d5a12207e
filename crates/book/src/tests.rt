use crate::{Book, Point, replay};
use network::source::Source;
use network::table::DistanceTable;
use network::trunk::Trunk;
use pricing::figures::{ElementFigures, SideFigures, TariffFigures};
use revenue::figures::Figures;
use revenue::units::{HundredThousandths, HundredthsOfPercent, MegawattHours, ParasPerKwh};
use rules::calls::{Answer, Call};
use std::alloc::Global;
use std::process::Abort;
use std::test::Fail;
use terms::faults::{BookFault, ClosingFigure, SourceFault};
use terms::measures::{Dinars, Lots, PriceSteps};
use terms::points::{Kind, Side};

// A period with an allowed revenue of 9,001: justified 9,000 and realised 10,000 in the period that is corrected.
fn period() -> Figures {
    Figures {
        operating: Dinars(6_000),
        depreciation: Dinars(1_000),
        assets: Dinars(20_000),
        rate: HundredthsOfPercent(800),
        delivered: MegawattHours(1_000_000),
        loss: HundredThousandths(100),
        price: ParasPerKwh(350),
        nonstandard: Dinars(1_500),
        other: Dinars(603),
        justified: Dinars(9_000),
        realised: Dinars(10_000),
        index: HundredthsOfPercent(0),
    }
}

// Nothing but a correction of 20,000,000.
fn correction() -> Figures {
    Figures {
        operating: Dinars(0),
        depreciation: Dinars(0),
        assets: Dinars(0),
        rate: HundredthsOfPercent(0),
        delivered: MegawattHours(0),
        loss: HundredThousandths(0),
        price: ParasPerKwh(0),
        nonstandard: Dinars(0),
        other: Dinars(0),
        justified: Dinars(10_000_000),
        realised: Dinars(0),
        index: HundredthsOfPercent(10_000),
    }
}

// The worked book: stations at 0, 40, 100 and 2,000 km, and four points.
fn worked(rt: &impl Abort, heap: Global) -> Result<Book<Trunk>, Fail> {
    let mut book = Book::on_trunk(heap, &[0, 40, 100, 2_000])?;
    assert_eq!(rt; book.open(Side::Entry, Kind::Transmission, 0)?, 0);
    assert_eq!(rt; book.open(Side::Entry, Kind::Storage, 1)?, 1);
    assert_eq!(rt; book.open(Side::Exit, Kind::Local, 2)?, 2);
    assert_eq!(rt; book.open(Side::Exit, Kind::Storage, 1)?, 3);
    book.plan(0, Lots(300))?;
    book.plan(1, Lots(100))?;
    book.plan(2, Lots(350))?;
    book.plan(3, Lots(50))?;
    book.relieve(Side::Entry, 7_500)?;
    book.relieve(Side::Exit, 5_000)?;
    book.close(period())?;
    Ok(book)
}

fn element(share: u64, tariff: Option<u64>) -> ElementFigures {
    ElementFigures {
        share: Dinars(share),
        tariff: tariff.map(PriceSteps),
    }
}

fn shares(figures: TariffFigures) -> u128 {
    let TariffFigures { entries, exits } = figures;
    let of_entries = entries.main.share.0 as u128
        + entries.other.share.0 as u128
        + entries.storage.share.0 as u128;
    let of_exits = exits.main.share.0 as u128
        + exits.other.share.0 as u128
        + exits.storage.share.0 as u128;
    of_entries + of_exits
}

// Why a call is refused.
fn refusal<S: Source>(book: &mut Book<S>, call: Call) -> Result<BookFault, Fail> {
    Ok(book.handle(call).err().ok_or("accepted")?)
}

// All figures of the worked book are what its calls left.
fn unchanged(rt: &impl Abort, book: &Book<Trunk>) {
    assert_eq!(rt; book.points(), 4);
    assert_eq!(rt;
        book.point(0),
        Some(Point {
            side: Side::Entry,
            kind: Kind::Transmission,
            station: 0,
            lots: Lots(300),
        })
    );
    assert_eq!(rt;
        book.point(1),
        Some(Point {
            side: Side::Entry,
            kind: Kind::Storage,
            station: 1,
            lots: Lots(100),
        })
    );
    assert_eq!(rt;
        book.point(2),
        Some(Point {
            side: Side::Exit,
            kind: Kind::Local,
            station: 2,
            lots: Lots(350),
        })
    );
    assert_eq!(rt;
        book.point(3),
        Some(Point {
            side: Side::Exit,
            kind: Kind::Storage,
            station: 1,
            lots: Lots(50),
        })
    );
    assert_eq!(rt; book.point(4), None);
    assert_eq!(rt; book.lots(Side::Entry), Lots(400));
    assert_eq!(rt; book.lots(Side::Exit), Lots(400));
    assert_eq!(rt; book.relief(Side::Entry), 7_500);
    assert_eq!(rt; book.relief(Side::Exit), 5_000);
    assert_eq!(rt; book.allowed(), Dinars(9_001));
    assert_eq!(rt; book.carried(), Dinars(0));
}

#[test]
fn the_worked_book_gives_its_shares_and_tariffs(rt: HostRuntime) -> Result<(), Fail> {
    let book = worked(&rt, rt.alloc())?;
    unchanged(&rt, &book);
    let entries = SideFigures {
        main: element(4_321, Some(14_403)),
        other: element(0, None),
        storage: element(179, Some(1_790)),
    };
    let exits = SideFigures {
        main: element(4_399, Some(12_569)),
        other: element(0, None),
        storage: element(102, Some(2_040)),
    };
    assert_eq!(rt; book.draw()?.figures(), TariffFigures { entries, exits });
    Ok(())
}

#[test]
fn a_refused_call_leaves_every_figure(rt: HostRuntime) -> Result<(), Fail> {
    let mut book = worked(&rt, rt.alloc())?;
    let mut high = period();
    high.realised = Dinars(10_000_001);
    let mut poor = period();
    poor.other = Dinars(10_000_000);
    let mut rich = period();
    rich.operating = Dinars(10_000_000);
    rich.depreciation = Dinars(10_000_000);
    let refused = [
        (
            Call::Open(Side::Entry, Kind::Local, 9),
            BookFault::KindNotOfSide,
        ),
        (
            Call::Open(Side::Entry, Kind::Production, 4),
            BookFault::NoStation,
        ),
        (Call::Open(Side::Exit, Kind::Local, 3), BookFault::TooFar),
        (Call::Plan(4, Lots(0)), BookFault::NoPoint),
        (Call::Plan(1, Lots(39_701)), BookFault::TooManyLots),
        (Call::Relieve(Side::Exit, 10_001), BookFault::ReliefTooHigh),
        (
            Call::Close(high),
            BookFault::OutOfRange(ClosingFigure::Realised),
        ),
        (Call::Close(poor), BookFault::BaseBelowZero),
        (Call::Close(rich), BookFault::AllowedTooLarge),
    ];
    for (call, fault) in refused {
        assert_eq!(rt; refusal(&mut book, call)?, fault);
        unchanged(&rt, &book);
    }
    Ok(())
}

#[test]
fn no_more_is_carried_on_than_may_be(rt: HostRuntime) -> Result<(), Fail> {
    let mut book = Book::on_trunk(rt.alloc(), &[0])?;
    for _ in 0..5 {
        let _ = book.close(correction())?;
    }
    assert_eq!(rt;
        refusal(&mut book, Call::Close(correction()))?,
        BookFault::CarriedTooLarge
    );
    assert_eq!(rt; book.carried(), Dinars(100_000_000));
    Ok(())
}

#[test]
fn a_long_distance_is_met_first_and_none_still_goes_before_it(rt: HostRuntime) -> Result<(), Fail> {
    let source = DistanceTable::new(
        rt.alloc(),
        3,
        &[0, 2_000, 65_535, 2_000, 0, 65_535, 65_535, 65_535, 0],
    )?;
    let mut book = Book::new(source);
    assert_eq!(rt; book.open(Side::Exit, Kind::Local, 1)?, 0);
    assert_eq!(rt;
        refusal(&mut book, Call::Open(Side::Entry, Kind::Transmission, 0))?,
        BookFault::TooFar
    );
    assert_eq!(rt; book.open(Side::Exit, Kind::Local, 2)?, 1);
    assert_eq!(rt;
        refusal(&mut book, Call::Open(Side::Entry, Kind::Transmission, 0))?,
        BookFault::NoDistance
    );
    Ok(())
}

#[test]
fn a_full_book_takes_no_more_points(rt: HostRuntime) -> Result<(), Fail> {
    let mut book = Book::on_trunk(rt.alloc(), &[0, 1_000])?;
    for n in 0..32u32 {
        assert_eq!(rt; book.open(Side::Entry, Kind::Transmission, 0)?, n);
    }
    for n in 32..128u32 {
        assert_eq!(rt; book.open(Side::Exit, Kind::Local, 1)?, n);
    }
    assert_eq!(rt;
        refusal(&mut book, Call::Open(Side::Entry, Kind::Transmission, 0))?,
        BookFault::SideFull
    );
    assert_eq!(rt;
        refusal(&mut book, Call::Open(Side::Exit, Kind::Local, 1))?,
        BookFault::SideFull
    );
    assert_eq!(rt; book.points(), 128);
    Ok(())
}

#[test]
fn storage_alone_has_no_exact_shares(rt: HostRuntime) -> Result<(), Fail> {
    let mut book = Book::on_trunk(rt.alloc(), &[0, 40])?;
    assert_eq!(rt; refusal(&mut book, Call::Draw)?, BookFault::NoEntryShares);
    book.open(Side::Entry, Kind::Transmission, 0)?;
    book.open(Side::Exit, Kind::Storage, 1)?;
    book.plan(0, Lots(10))?;
    book.plan(1, Lots(10))?;
    assert_eq!(rt; refusal(&mut book, Call::Draw)?, BookFault::NoExitShares);
    Ok(())
}

// The figures of an outcome that drafted some.
fn drawn(outcome: Result<Answer, BookFault>) -> Result<TariffFigures, Fail> {
    match outcome {
        Ok(Answer::Drawn(figures)) => Ok(figures),
        _ => Err(Fail::new("no draft")),
    }
}

#[test]
fn a_refused_draw_leaves_no_trace(rt: HostRuntime) -> Result<(), Fail> {
    let calls = [
        Call::Open(Side::Entry, Kind::Transmission, 0),
        Call::Open(Side::Exit, Kind::Local, 1),
        Call::Plan(0, Lots(10)),
        Call::Plan(1, Lots(10)),
        Call::Close(period()),
        Call::Draw,
        Call::Plan(1, Lots(0)),
        Call::Draw,
        Call::Plan(1, Lots(10)),
        Call::Draw,
    ];
    let (book, outcomes) = replay(rt.alloc(), Trunk::new(rt.alloc(), &[0, 40])?, &calls)?;
    assert!(rt; outcomes.len() == 10);
    assert_eq!(rt; outcomes[7], Err(BookFault::NoEntryShares));
    let before = drawn(outcomes[5])?;
    assert_eq!(rt; drawn(outcomes[9])?, before);
    assert_eq!(rt; shares(before), 9_001);
    assert_eq!(rt; book.allowed(), Dinars(9_001));
    Ok(())
}

#[test]
fn a_fault_of_the_source_is_passed_on_whole(rt: HostRuntime) -> Result<(), Fail> {
    let fault = Book::on_trunk(rt.alloc(), &[0, 10_000])
        .err()
        .ok_or("made")?;
    assert_eq!(rt; fault, BookFault::Source(SourceFault::BadFigure(1)));
    Ok(())
}
