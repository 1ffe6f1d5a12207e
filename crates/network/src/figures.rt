// Any source as the figures of a table.
ghost use Rattle.std.specs.Prelude.{◌≡◌, ℕ, ◌≤◌, IfOk, Some};
ghost use Rattle.network.specs.Limits.{longest};
ghost use Rattle.network.specs.Distances.{kms};
ghost use Rattle.network.specs.Grid.{figure_of, grid_net};

use crate::limits::NONE_FIGURE;
use crate::source::Source;
use std::alloc::{AllocError, Global};
use terms::measures::Km;

fn figure(distance: Option<Km>) -> u16
    requires { (k : ℕ) → kms distance ≡ Some k → k ≤ longest }
    ensures { result ≡ figure_of (kms distance) }
{
    distance.map_or(NONE_FIGURE, |k| k.0 as u16)
}

// The distances between all stations, row by row. They mean what the source means.
pub fn figures_of<S: Source>(heap: Global, source: &S) -> Result<Vec<u16>, AllocError>
    ensures { IfOk result (λ v. grid_net (S.net source.now).stations v.items ≡ S.net source.now) }
{
    let n = source.stations();
    let mut figures = Vec::new(heap);
    for a in 0..n {
        for b in 0..n {
            figures.push(figure(source.distance(a, b)))?;
        }
    }
    Ok(figures)
}
