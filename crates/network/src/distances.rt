// Distances that may be none.
ghost use Rattle.std.specs.Prelude.{◌≡◌};
ghost use Rattle.network.specs.Net.{plus, least, capped};
ghost use Rattle.network.specs.Distances.{kms};

use crate::limits::LONGEST;
use terms::measures::Km;

// Both together; none where either is none.
pub(crate) fn sum(u: Option<Km>, v: Option<Km>) -> Option<Km>
    ensures { kms result ≡ capped (plus (kms u) (kms v)) }
{
    Some(Km(u?.0.saturating_add(v?.0).min(LONGEST)))
}

// The shorter of those that are there.
pub(crate) fn shorter(u: Option<Km>, v: Option<Km>) -> Option<Km>
    ensures { kms result ≡ least (kms u) (kms v) }
{
    u.zip(v).map(|(u, v)| Km(u.0.min(v.0))).or(u).or(v)
}
