ghost use Rattle.std.specs.Prelude.{◌≡◌};

use terms::faults::SourceFault;

// A layer that was not made: why, and what it was to stand on, as it was moved in.
#[derive(Drop)]
pub struct RefusedLayer<S> {
    pub fault: SourceFault,
    pub below: S,
}

impl<S: Drop> From<RefusedLayer<S>> for SourceFault {
    ghost from_gives = { λ e r. r ≡ e.fault };

    fn from(e: RefusedLayer<S>) -> SourceFault {
        e.fault
    }
}
