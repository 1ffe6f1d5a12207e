// The distances of a station to the points of the opposite side.
ghost use Rattle.std.specs.Prelude.{◌≡◌};
ghost use Rattle.book.specs.Passes.{Surveyed};

use crate::limits::FARTHEST_KM;
use crate::record::PointRecord;
use network::source::Source;
use terms::faults::BookFault;

// Whether each of the points has a distance to the station, and none is too far. A lacking distance goes before a long one,
// whichever is met first. Each distance is asked at most once.
pub(crate) fn survey<S: Source>(
    source: &S,
    station: u32,
    points: &[PointRecord],
) -> Result<(), BookFault>
    ensures { Surveyed (S.Source.net source.now) station points.now result }
{
    let mut farthest = 0;
    for point in points {
        let distance = source.distance(station, point.station);
        let km = distance.ok_or(BookFault::NoDistance)?;
        farthest = farthest.max(km.0);
    }
    if farthest > FARTHEST_KM {
        return Err(BookFault::TooFar);
    }
    Ok(())
}
