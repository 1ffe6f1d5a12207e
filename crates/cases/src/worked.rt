ghost use Rattle.std.specs.Prelude.{◌≡◌, length};
ghost use Rattle.cases.specs.Worked.{distances, Hold};

// How many distances are worked out by hand.
pub fn worked_distances() -> usize
    ensures count { result ≡ length distances }
    ensures hold { Hold distances }
{
    4
}
