ghost use Rattle.std.specs.Prelude.{◌≡◌, IfOk};
ghost use Rattle.network.specs.Pipes.{GoodPipes, LeastGrid, Joins, map_rules};
ghost use Rattle.network.specs.Rules.{Made};
ghost use Rattle.network.specs.Routes.{Shortest, OneShortest};
ghost use Rattle.network.specs.Grids.{unlock, grid_lawful};

use crate::pipe::Pipe;
use crate::pipe_network::PipeNetwork;
use crate::source::Source;
use crate::table::DistanceTable;
use std::alloc::{AllocError, Global};
use terms::faults::SourceFault;
use terms::measures::Km;

// Pipes between stations, with the distances along them worked out.
#[derive(Drop)]
pub struct PipeMap {
    pipes: Vec<Pipe>,
    table: DistanceTable,
    ghost good: { ∥ GoodPipes table.grid.count pipes.items ∥₁ },
    ghost least: { ∥ LeastGrid table.grid.count pipes.items table.grid.figures.items ∥₁ },
}

impl PipeNetwork<'_> {
    // The distances along the pipes.
    fn distances(&self, heap: Global) -> Result<DistanceTable, AllocError>
        ensures { IfOk result (λ t. (t.grid.count ≡ self.now.count) × LeastGrid self.now.count self.now.pipes.now t.grid.figures.items) }
    {
        let grid = self.shortest(heap)?;
        Ok(DistanceTable { grid })
    }
}

impl PipeMap {
    ghost use Rattle.network.specs.Meanings.{of_map};

    // The distances are worked out here, once.
    pub fn new(heap: Global, n: u32, pipes: &[Pipe]) -> Result<PipeMap, SourceFault>
        ensures made { Made (map_rules n pipes.now) (λ m. Shortest (Joins pipes.now) n (of_map m)) result }
        ensures one { OneShortest (Joins pipes.now) n }
    {
        let network = PipeNetwork::new(n, pipes)?;
        let table = network.distances(heap)?;
        let pipes = Vec::from_slice(heap, network.pipes)?;
        Ok(PipeMap { pipes, table })
    }
}

impl Source for PipeMap {
    ghost use Rattle.network.specs.Meanings.{of_map};

    ghost net = { of_map };

    ghost lawful = { λ m. let g = m.table.grid in grid_lawful g.count g.figures.items m.table.some g.few (unlock g.count g.figures.items m.table.laws) };

    fn stations(&self) -> u32 {
        self.table.stations()
    }

    fn distance(&self, a: u32, b: u32) -> Option<Km> {
        self.table.distance(a, b)
    }
}
