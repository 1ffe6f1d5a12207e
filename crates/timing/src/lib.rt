//! Work for the benchmarks. `timing_c` exports it to C, so each piece of work takes a heap and a count of turns, as C gives them.
#![tactic(auto)]

ghost use Rattle.std.specs.Prelude.{◌*◌, ◌^◌, ◌<◌, ◌≤◌};
ghost use Rattle.network.specs.Limits.{longest};

use book::Book;
use network::limits::{BOTTOM_STATIONS, MOST_PIPES};
use network::link::Link;
use network::map::PipeMap;
use network::pipe::Pipe;
use network::source::Source;
use network::trunk::Trunk;
use std::alloc::Global;
use std::array;
use terms::faults::SourceFault;
use terms::measures::{Km, Lots};
use terms::points::{Kind, Side};

// Pipe `i` of a map of 64 stations with 200 pipes.
fn large_pipe(i: u32) -> Pipe
    requires { i < 2 ^ 16 }
{
    Pipe {
        from: i % BOTTOM_STATIONS,
        to: (5 * i + 1) % BOTTOM_STATIONS,
        length: Km(1 + i % 97),
    }
}

fn large_map(heap: Global) -> Result<PipeMap, SourceFault> {
    let pipes: [Pipe; MOST_PIPES] = array::from_fn(|i| large_pipe(i as u32));
    PipeMap::new(heap, BOTTOM_STATIONS, &pipes)
}

// The same map under three links.
fn three_links(heap: Global) -> Result<Link<Link<Link<PipeMap>>>, SourceFault> {
    let one = Link::new(large_map(heap)?, 0, 32, Km(5))?;
    let two = Link::new(one, 7, 40, Km(9))?;
    Ok(Link::new(two, 21, 63, Km(2))?)
}

// The sum of so many distances, between one pair of stations after another. A loop with one invariant: the `sum` of a chain asked for
// two proofs by hand.
fn ask<S: Source>(source: &S, turns: u32) -> u64
    ensures { result ≤ longest * turns }
{
    let n = source.stations();
    let mut sum = 0;
    for i in 0..turns {
        sum += source
            .distance(i % n, i / n % n)
            .map_or(0, |km| u64::from(km.0));
    }
    sum
}

// How many of so many maps were made: all, unless memory was wanting.
pub fn timing_maps(heap: Global, turns: u32) -> u32
    ensures { result ≤ turns }
{
    (0..turns).take_while(|_| large_map(heap).is_ok()).count() as u32
}

pub fn timing_distances(heap: Global, turns: u32) -> u64
    ensures { result ≤ longest * turns }
{
    large_map(heap).map_or(0, |map| ask(&map, turns))
}

pub fn timing_three_links(heap: Global, turns: u32) -> u64
    ensures { result ≤ longest * turns }
{
    three_links(heap).map_or(0, |pile| ask(&pile, turns))
}

// So many points of one side, each at a station of its own as far as there are stations, with 400 lots.
fn fill<S: Source>(book: &mut Book<S>, side: Side, kind: Kind, count: u32) {
    for i in 0..count {
        if let Ok(number) = book.open(side, kind, i % BOTTOM_STATIONS) {
            let _ = book.plan(number, Lots(400));
        }
    }
}

// How many of so many draws on a full book were answered with a draft: all, where each two stations have a short distance.
fn draws<S: Source + Drop>(source: S, turns: u32) -> u32
    ensures { result ≤ turns }
{
    let mut book = Book::new(source);
    fill(&mut book, Side::Entry, Kind::Transmission, 32);
    fill(&mut book, Side::Exit, Kind::Local, 96);
    (0..turns).take_while(|_| book.draw().is_ok()).count() as u32
}

// A trunk of 64 stations, a kilometre apart.
fn long_trunk(heap: Global) -> Result<Trunk, SourceFault> {
    let positions: [u32; 64] = array::from_fn(|i| i as u32);
    Trunk::new(heap, &positions)
}

pub fn timing_trunk_draws(heap: Global, turns: u32) -> u32
    ensures { result ≤ turns }
{
    long_trunk(heap).map_or(0, |trunk| draws(trunk, turns))
}

pub fn timing_map_draws(heap: Global, turns: u32) -> u32
    ensures { result ≤ turns }
{
    large_map(heap).map_or(0, |map| draws(map, turns))
}
