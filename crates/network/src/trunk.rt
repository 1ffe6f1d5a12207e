ghost use Rattle.std.specs.Prelude.{ℕ, ◌<◌, ◌≤◌, vec_len, slice_index, ◌≡◌, length};
ghost use Rattle.network.specs.Limits.{bottom_stations, longest};
ghost use Rattle.network.specs.Rules.{First, Made};
ghost use Rattle.network.specs.Trunk.{trunk_net, trunk_rules};
ghost use Rattle.network.specs.Trunks.{held_lawful};

use crate::limits::{BOTTOM_STATIONS, LONGEST};
use crate::source::Source;
use std::alloc::Global;
use terms::faults::SourceFault;
use terms::measures::Km;

// Stations along one line: a position in km for each.
#[derive(Drop)]
pub struct Trunk {
    positions: Vec<u32>,
    ghost some: { 1 ≤ vec_len positions },
    ghost few: { vec_len positions ≤ bottom_stations },
    ghost low: { (k : ℕ) → k < vec_len positions → slice_index positions.items k ≤ longest },
}

// The first position over the limit.
fn first_high(positions: &[u32]) -> Option<usize>
    ensures { First (λ i. longest < slice_index positions.now i) (length positions.now) result }
{
    positions.iter().position(|p| *p > LONGEST)
}

impl Trunk {
    ghost use Rattle.network.specs.Meanings.{of_trunk};

    // The stations in their order, each at its position in km.
    pub fn new(heap: Global, positions: &[u32]) -> Result<Trunk, SourceFault>
        ensures { Made (trunk_rules positions.now) (λ t. of_trunk t ≡ trunk_net positions.now) result }
    {
        if positions.is_empty() || positions.len() > BOTTOM_STATIONS as usize {
            return Err(SourceFault::WrongCount);
        }
        if let Some(i) = first_high(positions) {
            return Err(SourceFault::BadFigure(i));
        }
        let positions = Vec::from_slice(heap, positions)?;
        Ok(Trunk { positions })
    }
}

impl Source for Trunk {
    ghost use Rattle.network.specs.Meanings.{of_trunk};

    ghost net = { of_trunk };

    ghost lawful = { λ s. held_lawful s.positions s.some s.few s.low };

    fn stations(&self) -> u32 {
        self.positions.len() as u32
    }

    fn distance(&self, a: u32, b: u32) -> Option<Km> {
        let p = self.positions.get(a as usize)?;
        let q = self.positions.get(b as usize)?;
        Some(Km(p.abs_diff(*q)))
    }
}
