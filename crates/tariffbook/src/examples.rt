// Built-in figures to look at.
use anyhow::Context;
use network::link::Link;
use network::map::PipeMap;
use network::pairing::Pairing;
use network::pipe::Pipe;
use network::source::Source;
use network::trunk::Trunk;
use pricing::amount::Amount;
use pricing::basis::Weights;
use pricing::decision::{Draft, draw};
use pricing::figures::SideLots;
use pricing::plan::SidePlan;
use pricing::products::{Product, Term};
use pricing::relief::Relief;
use shows::distances::distance_table;
use std::alloc::Global;
use terms::faults::SourceFault;
use terms::measures::{Dinars, Km, Lots};
use terms::points::{Kind, Side};

// A trunk of three stations; at its last one a ring of pipes with a station that no pipe reaches; a link from end to end.
fn network(heap: Global) -> Result<Link<Pairing<Trunk, PipeMap>>, SourceFault> {
    let trunk = Trunk::new(heap, &[0, 40, 100])?;
    let pipes = [
        Pipe {
            from: 0,
            to: 1,
            length: Km(25),
        },
        Pipe {
            from: 1,
            to: 2,
            length: Km(10),
        },
        Pipe {
            from: 0,
            to: 2,
            length: Km(50),
        },
    ];
    let map = PipeMap::new(heap, 4, &pipes)?;
    let pairing = Pairing::new(trunk, map, 2, 0)?;
    Ok(Link::new(pairing, 0, 5, Km(70))?)
}

pub(crate) fn show_distances(rt: &HostRuntime) -> anyhow::Result<()> {
    let source = network(rt.alloc())
        .ok()
        .context("the built-in network was not made")?;
    rt.print(distance_table(rt.alloc(), &source)?)?;
    Ok(())
}

fn side(
    main: u64,
    storage: u64,
    main_lots: u32,
    storage_lots: u32,
    relief: u32,
) -> Option<SidePlan> {
    let relief = Relief::new(relief)?;
    Some(SidePlan {
        weights: Weights {
            main,
            other: 0,
            storage,
        },
        lots: SideLots {
            main: Lots(main_lots),
            other: Lots(0),
            storage: Lots(storage_lots),
        },
        relief,
    })
}

// 9,001 thousand dinars over entries of transmission and storage and exits of local consumption and storage.
fn draft() -> Option<Draft> {
    let allowed = Amount::new(Dinars(9_001))?;
    let entries = side(11_100_000, 2_100_000, 300, 100, 7_500)?;
    let exits = side(12_600_000, 600_000, 350, 50, 5_000)?;
    draw(allowed, entries, exits).ok()
}

// The six lines of a decision, and the price of its first quarter at 1.25 for a transmission entry.
fn decided(rt: &HostRuntime, draft: Draft) -> anyhow::Result<()> {
    let approved = draft.approve();
    let quarter = Product {
        term: Term::Quarter,
        number: 0,
    };
    let price = approved.price(Side::Entry, Kind::Transmission, quarter, 125);
    rt.print(approved.lines(rt.alloc())?)?;
    let steps = price.ok().context("the built-in price was refused")?;
    println!(rt; "E T Q 0 {}", steps.0)?;
    Ok(())
}

pub(crate) fn show_tariffs(rt: &HostRuntime) -> anyhow::Result<()> {
    decided(rt, draft().context("the built-in draw was refused")?)
}
