// The weights and lots of a book's elements.
ghost use Rattle.std.specs.Prelude.{◌≡◌, ℕ, ◌+◌, ◌*◌, ◌≤◌};
ghost use Rattle.network.specs.Distances.{kms};
ghost use Rattle.rules.specs.Limits.{most_lots};
ghost use Rattle.rules.specs.Weights.{km};
ghost use Rattle.book.specs.Shows.{held_in};
ghost use Rattle.book.specs.Tallies.{plus, both, tally, record_reach, record_weights, brought, record_side_lots, Within, most_reach, heaviest};

use crate::record::PointRecord;
use crate::row::Row;
use network::source::Source;
use pricing::basis::Weights;
use pricing::figures::SideLots;
use terms::measures::{Km, Lots};
use terms::points::{Kind, Side};

const NOTHING: Weights = Weights {
    main: 0,
    other: 0,
    storage: 0,
};

// One figure more, for the element of this side and kind.
fn added(side: Side, kind: Kind, to: Weights, part: u64) -> Weights
    requires few { Within to (2 * heaviest) }
    requires small { part ≤ heaviest }
    ensures { result ≡ plus side kind to part }
{
    let mut sums = to;
    match (side, kind) {
        (_, Kind::Storage) => sums.storage += part,
        (Side::Entry, Kind::Transmission) | (Side::Exit, Kind::Local) => sums.main += part,
        (Side::Entry, Kind::Production) | (Side::Exit, Kind::Interconnector) => sums.other += part,
        _ => {},
    }
    sums
}

// The sums of a side's lots, by element. A row does not hold its side: it is the `entries` or the `exits` of a table.
fn lots_by_element(side: Side, row: &Row) -> Weights
    ensures value { result ≡ tally side (λ x. x.lots.0) (held_in row.now) }
    ensures few { Within result most_lots }
{
    let points = row.held();
    let mut sums = NOTHING;
    for point in points {
        sums = added(side, point.kind, sums, point.lots.0 as u64);
    }
    sums
}

// The lots of a side's elements.
pub(crate) fn side_lots(side: Side, row: &Row) -> SideLots
    ensures { result ≡ record_side_lots side (held_in row.now) }
{
    let sums = lots_by_element(side, row);
    SideLots {
        main: Lots(sums.main as u32),
        other: Lots(sums.other as u32),
        storage: Lots(sums.storage as u32),
    }
}

// The km of a distance; 0 where there is none.
fn length_of(distance: Option<Km>) -> u64
    ensures { result ≡ km (kms distance) }
{
    distance.map_or(0, |km| km.0 as u64)
}

// The sum of lots times distance from a point to the exits, and the exits' weights with what the point brings them.
fn weigh_against<S: Source>(
    source: &S,
    from: PointRecord,
    exits: &Row,
    before: Weights,
) -> (u64, Weights)
    requires few { Within before heaviest }
    requires lots { from.lots.0 ≤ most_lots }
    ensures reach { result.0 ≡ record_reach (S.Source.net source.now) from.station (held_in exits.now) }
    ensures short { result.0 ≤ most_reach }
    ensures brought { result.1 ≡ both before (tally Side.Exit (brought (S.Source.net source.now) from) (held_in exits.now)) }
    ensures few { (b : ℕ) → Within before b → Within result.1 (b + from.lots.0 * result.0) }
{
    let points = exits.held();
    let mut reach = 0;
    let mut weights = before;
    for exit in points {
        let part = exit.lots.0 as u64 * length_of(source.distance(from.station, exit.station));
        reach += part;
        weights = added(Side::Exit, exit.kind, weights, from.lots.0 as u64 * part);
    }
    (reach, weights)
}

// The weights of the entries' and of the exits' elements. Each distance is asked once.
pub(crate) fn six_weights<S: Source>(source: &S, entries: &Row, exits: &Row) -> (Weights, Weights)
    ensures entries { result.0 ≡ record_weights (S.Source.net source.now) Side.Entry (held_in entries.now) (held_in exits.now) }
    ensures exits { result.1 ≡ record_weights (S.Source.net source.now) Side.Exit (held_in exits.now) (held_in entries.now) }
{
    let points = entries.held();
    let mut of_entries = NOTHING;
    let mut of_exits = NOTHING;
    for entry in points {
        let (reach, with_entry) = weigh_against(source, *entry, exits, of_exits);
        of_exits = with_entry;
        of_entries = added(
            Side::Entry,
            entry.kind,
            of_entries,
            entry.lots.0 as u64 * reach,
        );
    }
    (of_entries, of_exits)
}
