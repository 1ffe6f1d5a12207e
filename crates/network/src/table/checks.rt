// What each figure of a table is held against.
ghost use Rattle.std.specs.Prelude.{◌≡◌, ℕ, ◌/◌, ◌%◌, ◌<◌, ◌≤◌, length, MatchBool, slice_index};
ghost use Rattle.network.specs.Rules.{First};
ghost use Rattle.network.specs.Table.{NoFigure, Beaten, BreaksLaw};

use crate::grid::GridRef;
use crate::limits::{LONGEST_FIGURE, NONE_FIGURE};

impl GridRef<'_> {
    // The first figure that is neither a distance nor none.
    pub(super) fn first_no_figure(&self) -> Option<usize>
        ensures { First (λ i. NoFigure (slice_index self.now.figures.now i)) (length self.now.figures.now) result }
    {
        self.figures.iter().position(|figure| *figure > LONGEST_FIGURE && *figure != NONE_FIGURE)
    }

    fn is_beaten(&self, a: usize, b: usize, c: usize) -> bool
        requires { let n = self.now.count in (a < n) × ((b < n) × (c < n)) }
        ensures { let beaten = Beaten self.now.count self.now.figures.now a b c in MatchBool result beaten (beaten → ⊥) }
    {
        let to = self.at(a, c);
        let from = self.at(c, b);
        to <= LONGEST_FIGURE && from <= LONGEST_FIGURE && to + from < self.at(a, b)
    }

    // A detour over some station is shorter than the figure, or there where the figure is none.
    fn has_detour(&self, a: usize, b: usize) -> bool
        requires { let n = self.now.count in (a < n) × (b < n) }
        ensures { let n = self.now.count in let beaten = Beaten n self.now.figures.now a b in MatchBool result ((c : ℕ) × beaten c) ((c : ℕ) → c < n → beaten c → ⊥) }
    {
        (0..self.count).any(|c| self.is_beaten(a, b, c))
    }

    fn breaks_law(&self, a: usize, b: usize) -> bool
        requires { let n = self.now.count in (a < n) × (b < n) }
        ensures { let broken = BreaksLaw self.now.count self.now.figures.now a b in MatchBool result broken (broken → ⊥) }
    {
        let there = self.at(a, b);
        let back = self.at(b, a);
        (a == b && there != 0) || there != back || self.has_detour(a, b)
    }

    // The first figure that breaks a law.
    pub(super) fn first_lawless(&self) -> Option<usize>
        ensures { let n = self.now.count in First (λ i. BreaksLaw n self.now.figures.now (i / n) (i % n)) (length self.now.figures.now) result }
    {
        (0..self.figures.len()).find(
            |&place|
                requires { place < length self.now.figures.now }
                ensures { let g = self.entry.now in let broken = BreaksLaw g.count g.figures.now (place / g.count) (place % g.count) in MatchBool result broken (broken → ⊥) }
            { self.breaks_law(place / self.count, place % self.count) },
        )
    }
}
