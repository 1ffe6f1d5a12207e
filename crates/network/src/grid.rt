// The figures of a square of stations, row by row. Rows and columns are asked in range, as an index of a slice is.
ghost use Rattle.std.specs.Prelude.{◌≡◌, ℕ, ◌+◌, ◌*◌, ◌<◌, ◌≤◌, length, vec_len, if◌then◌else◌, nat_eq, IfOk, slice_set};
ghost use Rattle.network.specs.Limits.{bottom_stations, none_figure};
ghost use Rattle.network.specs.Grid.{at};

use crate::limits::NONE_FIGURE;
use std::alloc::{AllocError, Global};

// Lent figures. A type beside `Grid`, since they are looked at before memory is asked for own ones; one generic type would name the
// figures of either through a trait in every clause.
#[derive(Clone, Copy)]
pub(crate) struct GridRef<'a> {
    pub(crate) count: usize,
    pub(crate) figures: &'a [u16],
    ghost few: { count ≤ bottom_stations },
    ghost size: { length figures.now ≡ count * count },
}

// Figures of its own, which can be set.
#[derive(Drop)]
pub(crate) struct Grid {
    pub(crate) count: usize,
    pub(crate) figures: Vec<u16>,
    ghost few: { count ≤ bottom_stations },
    ghost size: { vec_len figures ≡ count * count },
}

impl GridRef<'_> {
    // The place of the figure in row a and column b.
    fn place(&self, a: usize, b: usize) -> usize
        requires { (a < self.now.count) × (b < self.now.count) }
        ensures value { result ≡ a * self.now.count + b }
        ensures within { result < self.now.count * self.now.count }
    {
        a * self.count + b
    }

    pub(crate) fn at(&self, a: usize, b: usize) -> u16
        requires { (a < self.now.count) × (b < self.now.count) }
        ensures { result ≡ at self.now.count self.now.figures.now a b }
    {
        self.figures[self.place(a, b)]
    }
}

impl Grid {
    // No distance but from each station to itself.
    pub(crate) fn new(heap: Global, count: usize) -> Result<Grid, AllocError>
        requires { count ≤ bottom_stations }
        ensures { IfOk result (λ g. (g.count ≡ count) × ((c d : ℕ) → c < count → d < count → at count g.figures.items c d ≡ (if nat_eq c d then 0 else none_figure))) }
    {
        let figures = vec![in heap; NONE_FIGURE; count * count]?;
        let mut grid = Grid { count, figures };
        for a in 0..count {
            grid.set(a, a, 0);
        }
        Ok(grid)
    }

    pub(crate) fn lent(&self) -> GridRef<'_>
        ensures count { result.count ≡ self.now.count }
        ensures figures { result.figures.now ≡ self.now.figures.items }
    {
        GridRef {
            count: self.count,
            figures: &self.figures,
        }
    }

    pub(crate) fn at(&self, a: usize, b: usize) -> u16
        requires { (a < self.now.count) × (b < self.now.count) }
        ensures { result ≡ at self.now.count self.now.figures.items a b }
    {
        self.lent().at(a, b)
    }

    pub(crate) fn set(&mut self, a: usize, b: usize, figure: u16)
        requires { (a < self.old.count) × (b < self.old.count) }
        ensures count { self.new.count ≡ self.old.count }
        ensures figures { self.new.figures.items ≡ slice_set self.old.figures.items (a * self.old.count + b) figure }
    {
        let place = self.lent().place(a, b);
        self.figures[place] = figure;
    }
}
