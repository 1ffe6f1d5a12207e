// The inner table of a book, and the one place where its points are found and changed.
ghost use Rattle.std.specs.Prelude.{◌≡◌, ◌+◌, length};
ghost use Rattle.std.specs.Borrow.{sem};
ghost use Rattle.rules.specs.Points.{opposite, empty};
ghost use Rattle.book.specs.Rows.{LendsRow};
ghost use Rattle.book.specs.Shows.{held_in, row_of, Shows};
ghost use Rattle.book.specs.Figures.{Sees};
ghost use Rattle.book.specs.Steps.{Located};

use crate::row::Row;
use pricing::amount::Amount;
use revenue::carried::Carried;
use terms::points::Side;

// What a book holds beside its source. A call stands here with what it does by itself, over any net where it asks no source; the
// book's call of that name says, for the source that it holds, what all calls up to it lead to.
#[derive(Drop)]
pub struct PointTable {
    pub(crate) entries: Row,
    pub(crate) exits: Row,
    pub(crate) allowed: Amount,
    pub(crate) carried: Carried,
}

pub(crate) fn other_side(side: Side) -> Side
    ensures { result ≡ opposite side }
{
    match side {
        Side::Entry => Side::Exit,
        Side::Exit => Side::Entry,
    }
}

impl PointTable {
    // No point, and 0 elsewhere.
    pub(crate) fn new() -> PointTable
        ensures { Shows result empty }
    {
        PointTable {
            entries: Row::empty(),
            exits: Row::empty(),
            allowed: Amount::ZERO,
            carried: Carried::nothing(),
        }
    }

    pub(crate) fn row(&self, side: Side) -> &Row
        ensures { result.now ≡ row_of self.now side }
    {
        match side {
            Side::Entry => &self.entries,
            Side::Exit => &self.exits,
        }
    }

    // How many points are open, on both sides: also the number of the next one.
    pub(crate) fn points(&self) -> u32
        ensures value { result ≡ length (held_in self.now.entries) + length (held_in self.now.exits) }
        ensures figure { Sees self.now (λ p. result ≡ length p.points) }
    {
        (self.entries.held().len() + self.exits.held().len()) as u32
    }

    // The side and place of the point with this number.
    pub(crate) fn locate(&self, number: u32) -> Option<(Side, usize)>
        ensures { Located self.now number result }
    {
        let entry = self.entries.position(number).map(|at| (Side::Entry, at));
        entry.or_else(|| self.exits.position(number).map(|at| (Side::Exit, at)))
    }

    // The row of a side, to be changed.
    pub(crate) fn row_mut(&mut self, side: Side) -> &mut Row
        ensures* lends { sem 𝓛 (LendsRow self.entry side result) }
        ensures row { result.now ≡ row_of self.old side }
    {
        match side {
            Side::Entry => &mut self.entries,
            Side::Exit => &mut self.exits,
        }
    }
}
