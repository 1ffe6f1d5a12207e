ghost use Rattle.std.specs.Prelude.{◌≤◌, ◌≡◌};
ghost use Rattle.network.specs.Grid.{GridLaws, grid_net};
ghost use Rattle.network.specs.Rules.{Made};
ghost use Rattle.network.specs.Table.{table_rules};
ghost use Rattle.network.specs.Grids.{unlock, grid_lawful};

use crate::grid::{Grid, GridRef};
use crate::limits::{BOTTOM_STATIONS, LONGEST_FIGURE};
use crate::source::Source;
use std::alloc::Global;
use terms::faults::SourceFault;
use terms::measures::Km;

mod checks;

// The distances between the stations of a grid.
#[derive(Drop)]
pub struct DistanceTable {
    pub(crate) grid: Grid,
    ghost some: { 1 ≤ grid.count },
    ghost laws: { ∥ GridLaws grid.count grid.figures.items ∥₁ },
}

impl DistanceTable {
    ghost use Rattle.network.specs.Meanings.{of_table};

    // The figures row by row, one row of n for each of n stations.
    pub fn new(heap: Global, n: u32, figures: &[u16]) -> Result<DistanceTable, SourceFault>
        ensures { Made (table_rules n figures.now) (λ t. of_table t ≡ grid_net n figures.now) result }
    {
        let count = n as usize;
        if n == 0 || n > BOTTOM_STATIONS || figures.len() != count * count {
            return Err(SourceFault::WrongCount);
        }
        let lent = GridRef { count, figures };
        if let Some(i) = lent.first_no_figure() {
            return Err(SourceFault::BadFigure(i));
        }
        if let Some(i) = lent.first_lawless() {
            return Err(SourceFault::BadFigure(i));
        }
        let figures = Vec::from_slice(heap, figures)?;
        Ok(DistanceTable {
            grid: Grid { count, figures },
        })
    }
}

impl Source for DistanceTable {
    ghost use Rattle.network.specs.Meanings.{of_table};

    ghost net = { of_table };

    ghost lawful = { λ s. let g = s.grid in grid_lawful g.count g.figures.items s.some g.few (unlock g.count g.figures.items s.laws) };

    fn stations(&self) -> u32 {
        self.grid.count as u32
    }

    fn distance(&self, a: u32, b: u32) -> Option<Km> {
        let a = a as usize;
        let b = b as usize;
        if a >= self.grid.count || b >= self.grid.count {
            return None;
        }
        let figure = self.grid.at(a, b);
        (figure <= LONGEST_FIGURE).then(|| Km(u32::from(figure)))
    }
}
