ghost use Rattle.std.specs.Prelude.{◌≡◌, ℕ};
ghost use Rattle.terms.specs.Faults.{source_refusal};
ghost use Rattle.terms.specs.Refusals.{Ruled};
ghost use Rattle.network.specs.Rules.{Layered};
ghost use Rattle.network.specs.Net.{capped};
ghost use Rattle.network.specs.Distances.{kms};
ghost use Rattle.network.specs.Link.{via, link_net, link_rules, LinkLaw};
ghost use Rattle.network.specs.Links.{link_lawful};

use crate::distances::{shorter, sum};
use crate::limits::LONGEST;
use crate::refused::RefusedLayer;
use crate::source::Source;
use terms::faults::SourceFault;
use terms::measures::Km;

// A source with one piece more, between its stations p and q.
#[derive(Drop)]
pub struct Link<S: Source> {
    below: S,
    p: u32,
    q: u32,
    length: Km,
}

// The first broken rule, if any.
fn check<S: Source>(below: &S, p: u32, q: u32, length: Km) -> Result<(), SourceFault>
    ensures { Ruled source_refusal (link_rules (S.net below.now) p q length.0) tt result }
{
    let n = below.stations();
    if p >= n || q >= n {
        return Err(SourceFault::NoStation);
    }
    if length.0 > LONGEST {
        return Err(SourceFault::BadFigure(0));
    }
    Ok(())
}

impl<S: Source> Link<S> {
    ghost use Rattle.network.specs.Meanings.{of_link};

    // A refusal hands `below` back.
    pub fn new(below: S, p: u32, q: u32, length: Km) -> Result<Link<S>, RefusedLayer<S>>
        ensures made { Layered (link_rules (S.net below) p q length.0) below (λ t. of_link S.net t ≡ link_net (S.net below) p q length.0) result }
        ensures law { LinkLaw (S.net below) }
    {
        match check(&below, p, q, length) {
            Ok(()) => Ok(Link {
                below,
                p,
                q,
                length,
            }),
            Err(fault) => Err(RefusedLayer { fault, below }),
        }
    }

    // From a to the end u, over the link, and from its end v to b.
    fn via(&self, u: u32, v: u32, a: u32, b: u32) -> Option<Km>
        ensures { kms result ≡ capped (via (S.net self.now.below) u v self.now.length.0 a b) }
    {
        let over = sum(self.below.distance(a, u), Some(self.length));
        sum(over, self.below.distance(v, b))
    }
}

impl<S: Source> Source for Link<S> {
    ghost use Rattle.network.specs.Meanings.{of_link};

    ghost net = { of_link S.net };

    ghost lawful = { λ s. link_lawful (S.net s.below) (S.lawful s.below) s.p s.q s.length.0 };

    fn stations(&self) -> u32 {
        self.below.stations()
    }

    fn distance(&self, a: u32, b: u32) -> Option<Km> {
        let direct = self.below.distance(a, b);
        let forth = self.via(self.p, self.q, a, b);
        let back = self.via(self.q, self.p, a, b);
        shorter(direct, shorter(forth, back))
    }
}
