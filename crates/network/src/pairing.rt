ghost use Rattle.std.specs.Prelude.{◌≡◌, ℕ};
ghost use Rattle.terms.specs.Faults.{source_refusal};
ghost use Rattle.terms.specs.Refusals.{Ruled};
ghost use Rattle.network.specs.Rules.{Layered};
ghost use Rattle.network.specs.Distances.{kms};
ghost use Rattle.network.specs.Pairing.{across, pairing_net, pairing_rules};
ghost use Rattle.network.specs.Pairings.{cut_lawful};

use crate::distances::sum;
use crate::limits::MOST_STATIONS;
use crate::refused::RefusedLayer;
use crate::source::Source;
use terms::faults::SourceFault;
use terms::measures::Km;

// Two sources that meet at station x of the first and y of the second.
#[derive(Drop)]
pub struct Pairing<F: Source, G: Source> {
    first: F,
    second: G,
    x: u32,
    y: u32,
}

// The first broken rule, if any.
fn check<F: Source, G: Source>(first: &F, second: &G, x: u32, y: u32) -> Result<(), SourceFault>
    ensures { Ruled source_refusal (pairing_rules (F.net first.now) (G.net second.now) x y) tt result }
{
    let n = first.stations();
    let m = second.stations();
    if n + m > MOST_STATIONS {
        return Err(SourceFault::WrongCount);
    }
    if x >= n || y >= m {
        return Err(SourceFault::NoStation);
    }
    Ok(())
}

impl<F: Source, G: Source> Pairing<F, G> {
    ghost use Rattle.network.specs.Meanings.{of_pairing};

    // The first keeps its numbers, and the second's follow. A refusal hands both back.
    pub fn new(first: F, second: G, x: u32, y: u32) -> Result<Pairing<F, G>, RefusedLayer<(F, G)>>
        ensures { Layered (pairing_rules (F.net first) (G.net second) x y) (first, second) (λ t. of_pairing F.net G.net t ≡ pairing_net (F.net first) (G.net second) x y) result }
    {
        match check(&first, &second, x, y) {
            Ok(()) => Ok(Pairing {
                first,
                second,
                x,
                y,
            }),
            Err(fault) => Err(RefusedLayer {
                fault,
                below: (first, second),
            }),
        }
    }

    // From a of the first to b of the second.
    fn across(&self, a: u32, b: u32) -> Option<Km>
        ensures { kms result ≡ across (F.net self.now.first) (G.net self.now.second) self.now.x self.now.y a b }
    {
        sum(
            self.first.distance(a, self.x),
            self.second.distance(self.y, b),
        )
    }
}

impl<F: Source, G: Source> Source for Pairing<F, G> {
    ghost use Rattle.network.specs.Meanings.{of_pairing};

    ghost net = { of_pairing F.net G.net };

    ghost lawful = { λ s. cut_lawful _ _ (F.lawful s.first) (G.lawful s.second) s.x s.y };

    fn stations(&self) -> u32 {
        (self.first.stations() + self.second.stations()).min(MOST_STATIONS)
    }

    fn distance(&self, a: u32, b: u32) -> Option<Km> {
        if a >= MOST_STATIONS || b >= MOST_STATIONS {
            return None;
        }
        let n = self.first.stations();
        match (a.checked_sub(n), b.checked_sub(n)) {
            (None, None) => self.first.distance(a, b),
            (None, Some(b)) => self.across(a, b),
            (Some(a), None) => self.across(b, a),
            (Some(a), Some(b)) => self.second.distance(a, b),
        }
    }
}
