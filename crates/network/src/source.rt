ghost use Rattle.std.specs.Prelude.{◌≡◌, ℕ};
ghost use Rattle.network.specs.Net.{Net, Lawful};
ghost use Rattle.network.specs.Distances.{kms};

use terms::measures::Km;

// Stations, numbered from 0, and the distance between any two. Asking changes nothing.
pub trait Source {
    // what the source means
    ghost net: { Self → Net };

    fn stations(&self) -> u32
        ensures { result ≡ (net self.now).stations };

    // None where there is no route, or a or b is no station. They stay two numbers, since any two may be asked.
    fn distance(&self, a: u32, b: u32) -> Option<Km>
        ensures { kms result ≡ (net self.now).distance a b };

    ghost lawful: { (s : Self) → Lawful (net s) };
}
