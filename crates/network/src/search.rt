// The search for shortest routes: at first only the pipes, and then one station after another may be passed through.
// Rows, columns and the station passed through are asked in range, as an index of a slice is.
ghost use Rattle.std.specs.Prelude.{◌≡◌, ℕ, ◌+◌, ◌*◌, ◌<◌, IfOk, if◌then◌else◌, nat_eq, slice_set};
ghost use Rattle.network.specs.Grid.{at};
ghost use Rattle.network.specs.Search.{shortcut, through, laid};
ghost use Rattle.network.specs.Pipes.{GoodPipe, LeastGrid};

use crate::grid::Grid;
use crate::limits::LONGEST_FIGURE;
use crate::pipe::Pipe;
use crate::pipe_network::PipeNetwork;
use std::alloc::{AllocError, Global};

// z, or x and then y where that is shorter.
fn shortened(x: u16, y: u16, z: u16) -> u16
    ensures { result ≡ shortcut x y z }
{
    if x <= LONGEST_FIGURE && y <= LONGEST_FIGURE {
        z.min((x + y).min(LONGEST_FIGURE))
    } else {
        z
    }
}

impl Grid {
    // From a to b, k may now be passed through.
    fn relax_cell(&mut self, k: usize, a: usize, b: usize)
        requires { (k < self.old.count) × ((a < self.old.count) × (b < self.old.count)) }
        ensures count { self.new.count ≡ self.old.count }
        ensures figures { let n = self.old.count in self.new.figures.items ≡ slice_set self.old.figures.items (a * n + b) (through n self.old.figures.items k a b) }
    {
        self.set(a, b, shortened(self.at(a, k), self.at(k, b), self.at(a, b)));
    }

    fn relax_row(&mut self, k: usize, a: usize)
        requires { let n = self.old.count in (k < n) × ((a < n) × (at n self.old.figures.items k k ≡ 0)) }
        ensures count { self.new.count ≡ self.old.count }
        ensures figures { let n = self.old.count in (c d : ℕ) → c < n → d < n → at n self.new.figures.items c d ≡ (if nat_eq c a then through n self.old.figures.items k c d else at n self.old.figures.items c d) }
    {
        for b in 0..self.count {
            self.relax_cell(k, a, b);
        }
    }

    // From any station to any, k may now be passed through.
    fn relax(&mut self, k: usize)
        requires { let n = self.old.count in (k < n) × (at n self.old.figures.items k k ≡ 0) }
        ensures count { self.new.count ≡ self.old.count }
        ensures figures { let n = self.old.count in (c d : ℕ) → c < n → d < n → at n self.new.figures.items c d ≡ through n self.old.figures.items k c d }
    {
        for a in 0..self.count {
            self.relax_row(k, a);
        }
    }

    fn lay(&mut self, p: Pipe)
        requires { GoodPipe self.old.count p }
        ensures count { self.new.count ≡ self.old.count }
        ensures figures { self.new.figures.items ≡ laid self.old.count p self.old.figures.items }
    {
        let from = p.from as usize;
        let to = p.to as usize;
        let length = p.length.0 as u16;
        let there = length.min(self.at(from, to));
        let back = length.min(self.at(to, from));
        self.set(from, to, there);
        self.set(to, from, back);
    }
}

impl PipeNetwork<'_> {
    // The least lengths over all routes along the pipes.
    pub(crate) fn shortest(&self, heap: Global) -> Result<Grid, AllocError>
        ensures { IfOk result (λ g. (g.count ≡ self.now.count) × LeastGrid self.now.count self.now.pipes.now g.figures.items) }
    {
        let mut grid = Grid::new(heap, self.count)?;
        for p in self.pipes {
            grid.lay(*p);
        }
        for k in 0..self.count {
            grid.relax(k);
        }
        Ok(grid)
    }
}
