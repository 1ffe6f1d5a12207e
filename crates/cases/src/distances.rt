use crate::tables::{Row, gives, pipe};
use network::figures::figures_of;
use network::link::Link;
use network::map::PipeMap;
use network::pairing::Pairing;
use network::source::Source;
use network::table::DistanceTable;
use network::trunk::Trunk;
use std::alloc::Global;
use std::test::Fail;
use terms::faults::SourceFault;
use terms::measures::Km;

fn linked(heap: Global) -> Result<Link<Trunk>, SourceFault> {
    let trunk = Trunk::new(heap, &[0, 40, 100])?;
    Ok(Link::new(trunk, 0, 2, Km(70))?)
}

fn paired(heap: Global) -> Result<Pairing<Trunk, Trunk>, SourceFault> {
    let first = Trunk::new(heap, &[0, 40, 100])?;
    let second = Trunk::new(heap, &[0, 25])?;
    Ok(Pairing::new(first, second, 2, 0)?)
}

// A ring of four stations, and a fifth that no pipe reaches.
fn ring(heap: Global) -> Result<PipeMap, SourceFault> {
    PipeMap::new(
        heap,
        5,
        &[
            pipe(0, 1, 10),
            pipe(1, 2, 20),
            pipe(3, 2, 5),
            pipe(3, 0, 50),
        ],
    )
}

// A trunk, at its last station a map of one pipe, and a link between the ends.
fn pile(heap: Global) -> Result<Link<Pairing<Trunk, PipeMap>>, SourceFault> {
    let trunk = Trunk::new(heap, &[0, 40])?;
    let map = PipeMap::new(heap, 2, &[pipe(0, 1, 30)])?;
    let pairing = Pairing::new(trunk, map, 1, 0)?;
    Ok(Link::new(pairing, 0, 3, Km(50))?)
}

#[test]
fn a_link_shortens_what_goes_over_it(rt: HostRuntime) -> Result<(), Fail> {
    gives(
        &rt,
        &linked(rt.alloc())?,
        &[
            Row(0, 2, Some(70)),
            Row(1, 2, Some(60)),
            Row(0, 1, Some(40)),
            Row(0, 3, None),
        ],
    );
    Ok(())
}

#[test]
fn a_pairing_meets_at_the_exchange_station(rt: HostRuntime) -> Result<(), Fail> {
    gives(
        &rt,
        &paired(rt.alloc())?,
        &[
            Row(0, 4, Some(125)),
            Row(2, 3, Some(0)),
            Row(0, 2, Some(100)),
            Row(3, 4, Some(25)),
            Row(4, 5, None),
        ],
    );
    Ok(())
}

#[test]
fn of_two_routes_the_shorter_counts(rt: HostRuntime) -> Result<(), Fail> {
    gives(
        &rt,
        &ring(rt.alloc())?,
        &[
            Row(0, 3, Some(35)),
            Row(0, 2, Some(30)),
            Row(1, 3, Some(25)),
            Row(3, 3, Some(0)),
        ],
    );
    Ok(())
}

#[test]
fn without_a_route_there_is_no_distance(rt: HostRuntime) -> Result<(), Fail> {
    gives(
        &rt,
        &ring(rt.alloc())?,
        &[Row(0, 4, None), Row(4, 4, Some(0)), Row(4, 5, None)],
    );
    Ok(())
}

#[test]
fn a_long_route_stands_at_the_longest_distance(rt: HostRuntime) -> Result<(), Fail> {
    let pipes = [pipe(0, 1, 9_999), pipe(1, 2, 1)];
    gives(
        &rt,
        &PipeMap::new(rt.alloc(), 3, &pipes)?,
        &[
            Row(0, 1, Some(9_999)),
            Row(0, 2, Some(9_999)),
            Row(1, 2, Some(1)),
        ],
    );
    Ok(())
}

#[test]
fn a_map_and_the_table_of_its_distances_agree(rt: HostRuntime) -> Result<(), Fail> {
    let map = ring(rt.alloc())?;
    let figures = figures_of(rt.alloc(), &map)?;
    let table = DistanceTable::new(rt.alloc(), map.stations(), &figures)?;
    for a in 0..6 {
        for b in 0..6 {
            assert!(rt; table.distance(a, b) == map.distance(a, b));
        }
    }
    Ok(())
}

#[test]
fn layers_stand_on_layers(rt: HostRuntime) -> Result<(), Fail> {
    let figures = figures_of(rt.alloc(), &pile(rt.alloc())?)?;
    assert_eq!(rt;
        figures.as_slice(),
        [0, 40, 40, 50, 40, 0, 0, 30, 40, 0, 0, 30, 50, 30, 30, 0].as_slice()
    );
    Ok(())
}
