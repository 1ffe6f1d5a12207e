// Each refusal of a source, at its edge.
use crate::tables::{layer_fault, pipe};
use network::link::Link;
use network::map::PipeMap;
use network::pairing::Pairing;
use network::pipe::Pipe;
use network::source::Source;
use network::table::DistanceTable;
use network::trunk::Trunk;
use std::alloc::Global;
use std::test::Fail;
use terms::faults::SourceFault;
use terms::measures::Km;

// So many stations, what a source of them is made of, and what it is refused with.
#[derive(Drop)]
struct Case<'a, T>(u32, &'a [T], Option<SourceFault>);

#[test]
fn a_trunk_has_1_to_64_stations_at_up_to_9999_km(rt: HostRuntime) {
    let many = [7; 65];
    let cases: [(&[u32], Option<SourceFault>); 7] = [
        (&[], Some(SourceFault::WrongCount)),
        (&[7], None),
        (&many[0..64], None),
        (&many, Some(SourceFault::WrongCount)),
        (&[0, 9_999], None),
        (&[0, 9_999, 10_000, 10_001], Some(SourceFault::BadFigure(2))),
        (&[70_000], Some(SourceFault::BadFigure(0))),
    ];
    for (positions, refusal) in cases {
        assert_eq!(rt; Trunk::new(rt.alloc(), positions).err(), refusal);
    }
}

#[test]
fn a_table_has_a_row_for_each_of_1_to_64_stations(rt: HostRuntime) {
    let many = [0; 4_225];
    let cases = [
        Case(0, &[], Some(SourceFault::WrongCount)),
        Case(65, &many, Some(SourceFault::WrongCount)),
        Case(64, &many[0..4_096], None),
        Case(64, &many[0..4_095], Some(SourceFault::WrongCount)),
        Case(2, &many[0..5], Some(SourceFault::WrongCount)),
    ];
    for case in &cases {
        assert_eq!(rt;
            DistanceTable::new(rt.alloc(), case.0, case.1).err(),
            case.2
        );
    }
}

#[test]
fn a_figure_is_a_distance_or_none_and_then_keeps_the_laws(rt: HostRuntime) {
    let cases = [
        Case(2, &[0, 9_999, 9_999, 0], None),
        Case(2, &[0, 65_535, 65_535, 0], None),
        Case(2, &[5, 0, 10_000, 0], Some(SourceFault::BadFigure(2))),
        Case(2, &[0, 65_534, 65_534, 0], Some(SourceFault::BadFigure(1))),
        Case(2, &[0, 3, 3, 1], Some(SourceFault::BadFigure(3))),
        Case(2, &[0, 3, 4, 0], Some(SourceFault::BadFigure(1))),
        Case(2, &[0, 3, 65_535, 0], Some(SourceFault::BadFigure(1))),
        Case(3, &[0, 1, 2, 1, 0, 1, 2, 1, 0], None),
        Case(
            3,
            &[0, 1, 3, 1, 0, 1, 3, 1, 0],
            Some(SourceFault::BadFigure(2)),
        ),
        Case(
            3,
            &[0, 1, 65_535, 1, 0, 1, 65_535, 1, 0],
            Some(SourceFault::BadFigure(2)),
        ),
    ];
    for case in &cases {
        assert_eq!(rt;
            DistanceTable::new(rt.alloc(), case.0, case.1).err(),
            case.2
        );
    }
}

#[test]
fn a_map_has_1_to_64_stations_and_at_most_200_pipes(rt: HostRuntime) {
    let many = [pipe(62, 63, 1); 201];
    let cases = [
        Case(0, &[], Some(SourceFault::WrongCount)),
        Case(1, &[], None),
        Case(64, &many[0..200], None),
        Case(64, &many, Some(SourceFault::WrongCount)),
        Case(65, &[], Some(SourceFault::WrongCount)),
    ];
    for case in &cases {
        assert_eq!(rt; PipeMap::new(rt.alloc(), case.0, case.1).err(), case.2);
    }
}

#[test]
fn a_pipe_joins_two_different_stations_over_1_to_9999_km(rt: HostRuntime) {
    let good = pipe(2, 0, 9_999);
    let bad = [
        pipe(3, 0, 1),
        pipe(0, 3, 1),
        pipe(2, 2, 1),
        pipe(0, 2, 0),
        pipe(0, 2, 10_000),
    ];
    for p in &bad {
        assert_eq!(rt;
            PipeMap::new(rt.alloc(), 3, &[good, *p]).err(),
            Some(SourceFault::BadFigure(1))
        );
    }
    assert_eq!(rt; PipeMap::new(rt.alloc(), 3, &[good]).err(), None);
}

#[test]
fn a_link_is_refused_for_its_ends_and_then_for_its_length(rt: HostRuntime) -> Result<(), Fail> {
    let cases = [
        (2, 2, 9_999, None),
        (3, 2, 1, Some(SourceFault::NoStation)),
        (2, 3, 10_000, Some(SourceFault::NoStation)),
        (0, 2, 10_000, Some(SourceFault::BadFigure(0))),
    ];
    for (p, q, length, refusal) in cases {
        let trunk = Trunk::new(rt.alloc(), &[0, 40, 100])?;
        assert_eq!(rt; layer_fault(Link::new(trunk, p, q, Km(length))), refusal);
    }
    Ok(())
}

#[test]
fn a_refused_layer_hands_back_what_it_was_to_stand_on(rt: HostRuntime) -> Result<(), Fail> {
    let trunk = Trunk::new(rt.alloc(), &[0, 40, 100])?;
    let refused = Link::new(trunk, 0, 3, Km(1)).err();
    let back = refused.ok_or("station 3 was taken")?.below;
    let refused = Pairing::new(back, Trunk::new(rt.alloc(), &[0, 25])?, 2, 2).err();
    let (first, second) = refused.ok_or("station 2 of the second was taken")?.below;
    assert_eq!(rt; first.stations(), 3);
    assert_eq!(rt; second.stations(), 2);
    Ok(())
}

type Two = Pairing<Trunk, Trunk>;

type Four = Pairing<Two, Two>;

type Eight = Pairing<Four, Four>;

type Fourteen = Pairing<Eight, Pairing<Four, Two>>;

fn two(heap: Global) -> Result<Two, SourceFault> {
    let pairing = Pairing::new(
        Trunk::new(heap, &[0; 64])?,
        Trunk::new(heap, &[0; 64])?,
        0,
        0,
    )?;
    Ok(pairing)
}

fn four(heap: Global) -> Result<Four, SourceFault> {
    Ok(Pairing::new(two(heap)?, two(heap)?, 0, 0)?)
}

// 896 stations.
fn fourteen(heap: Global) -> Result<Fourteen, SourceFault> {
    let eight = Pairing::new(four(heap)?, four(heap)?, 0, 0)?;
    let six = Pairing::new(four(heap)?, two(heap)?, 0, 0)?;
    Ok(Pairing::new(eight, six, 0, 0)?)
}

#[test]
fn a_pairing_is_refused_over_1000_stations_and_then_for_its_exchange_stations(
    rt: HostRuntime,
) -> Result<(), Fail> {
    let more = [0; 41];
    let cases = [
        (40, 959, 39, None),
        (41, 960, 0, Some(SourceFault::WrongCount)),
        (40, 960, 0, Some(SourceFault::NoStation)),
        (40, 0, 40, Some(SourceFault::NoStation)),
    ];
    for (count, x, y, refusal) in cases {
        let last = Trunk::new(rt.alloc(), &[0; 64])?;
        let first = Pairing::new(fourteen(rt.alloc())?, last, 0, 0).ok();
        let first = first.ok_or("960 stations were refused")?;
        let second = Trunk::new(rt.alloc(), more.get(0..count).unwrap_or(&more))?;
        assert_eq!(rt; layer_fault(Pairing::new(first, second, x, y)), refusal);
    }
    Ok(())
}
