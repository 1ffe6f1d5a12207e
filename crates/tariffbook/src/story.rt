// A book at work: a draw that is refused in the middle of its calls leaves no trace.
use anyhow::Context;
use book::{Book, replay};
use network::link::Link;
use network::pairing::Pairing;
use network::source::Source;
use network::trunk::Trunk;
use pricing::figures::{SideFigures, TariffFigures};
use revenue::figures::Figures;
use revenue::units::{HundredThousandths, HundredthsOfPercent, MegawattHours, ParasPerKwh};
use rules::calls::{Answer, Call};
use sheet::print::Closed;
use std::alloc::Global;
use std::io;
use terms::faults::{BookFault, Fault, SourceFault};
use terms::measures::{Dinars, Km, Lots};
use terms::points::{Kind, Side};

type Grid = Link<Pairing<Trunk, Trunk>>;

// A trunk of three stations, at its last one a trunk of two, and a link of 70 km from the first station to the third.
fn grid(heap: Global) -> Result<Grid, SourceFault> {
    let first = Trunk::new(heap, &[0, 40, 100])?;
    let second = Trunk::new(heap, &[0, 25])?;
    let pairing = Pairing::new(first, second, 2, 0)?;
    Ok(Link::new(pairing, 0, 2, Km(70))?)
}

fn period() -> Figures {
    Figures {
        operating: Dinars(6_000),
        depreciation: Dinars(1_000),
        assets: Dinars(20_000),
        rate: HundredthsOfPercent(800),
        delivered: MegawattHours(1_000_000),
        loss: HundredThousandths(100),
        price: ParasPerKwh(350),
        nonstandard: Dinars(1_500),
        other: Dinars(603),
        justified: Dinars(9_000),
        realised: Dinars(10_000),
        index: HundredthsOfPercent(0),
    }
}

fn shared(side: SideFigures) -> u64 {
    side.main
        .share
        .0
        .saturating_add(side.other.share.0)
        .saturating_add(side.storage.share.0)
}

fn print_drawn(rt: &HostRuntime, figures: TariffFigures) -> io::Result<()> {
    println!(rt;
        "drawn: entries bear {}, exits {}",
        shared(figures.entries),
        shared(figures.exits)
    )
}

fn print_outcome(rt: &HostRuntime, outcome: Result<Answer, BookFault>) -> io::Result<()> {
    match outcome {
        Ok(Answer::Opened(number)) => println!(rt; "opened {number}"),
        Ok(Answer::Done) => println!(rt; "done"),
        Ok(Answer::Closed(closing)) => rt.print(Closed(closing)),
        Ok(Answer::Drawn(figures)) => print_drawn(rt, figures),
        Err(fault) => println!(rt; "refused {}", fault.number()),
    }
}

fn print_decision(rt: &HostRuntime, book: Book<Grid>) -> anyhow::Result<()> {
    let draft = book.draw().ok().context("the built-in draw was refused")?;
    rt.print(draft.approve().lines(rt.alloc())?)?;
    Ok(())
}

// The transmission entry is planned down to nothing, which leaves entries without exact shares, and up again.
fn tell(rt: &HostRuntime, source: Grid) -> anyhow::Result<()> {
    let calls = [
        Call::Open(Side::Entry, Kind::Transmission, 0),
        Call::Open(Side::Entry, Kind::Storage, 1),
        Call::Open(Side::Exit, Kind::Local, 2),
        Call::Open(Side::Exit, Kind::Interconnector, 4),
        Call::Plan(0, Lots(300)),
        Call::Plan(1, Lots(100)),
        Call::Plan(2, Lots(350)),
        Call::Plan(3, Lots(50)),
        Call::Relieve(Side::Entry, 7_500),
        Call::Close(period()),
        Call::Draw,
        Call::Plan(0, Lots(0)),
        Call::Draw,
        Call::Plan(0, Lots(300)),
        Call::Draw,
    ];
    let (book, outcomes) = replay(rt.alloc(), source, &calls)?;
    for outcome in &outcomes {
        print_outcome(rt, *outcome)?;
    }
    print_decision(rt, book)
}

pub(crate) fn show_book(rt: &HostRuntime) -> anyhow::Result<()> {
    let source = grid(rt.alloc())
        .ok()
        .context("the built-in grid was not made")?;
    tell(rt, source)
}
