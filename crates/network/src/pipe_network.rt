// Pipes that fit their stations, as lent.
ghost use Rattle.std.specs.Prelude.{◌≡◌, ◌≤◌, length, MatchBool};
ghost use Rattle.network.specs.Limits.{bottom_stations};
ghost use Rattle.network.specs.Rules.{First, Made};
ghost use Rattle.network.specs.Pipes.{GoodPipe, GoodPipes, pipe_at, map_rules};

use crate::limits::{BOTTOM_STATIONS, LONGEST, MOST_PIPES};
use crate::pipe::Pipe;
use terms::faults::SourceFault;

// 1 to 64 stations, and good pipes between them.
#[derive(Clone, Copy)]
pub(crate) struct PipeNetwork<'a> {
    pub(crate) count: usize,
    pub(crate) pipes: &'a [Pipe],
    ghost some: { 1 ≤ count },
    ghost few: { count ≤ bottom_stations },
    ghost good: { ∥ GoodPipes count pipes.now ∥₁ },
}

fn is_good(n: u32, p: Pipe) -> bool
    ensures { MatchBool result (GoodPipe n p) (GoodPipe n p → ⊥) }
{
    p.from < n && p.to < n && p.from != p.to && p.length.0 > 0 && p.length.0 <= LONGEST
}

// The first pipe that is not between two different stations, or not 1 to 9,999 km long.
fn first_bad(n: u32, pipes: &[Pipe]) -> Option<usize>
    ensures { First (λ i. GoodPipe n (pipe_at pipes.now i) → ⊥) (length pipes.now) result }
{
    pipes.iter().position(|p| !is_good(n, *p))
}

impl<'a> PipeNetwork<'a> {
    // Wrong counts are told first, and then the first bad pipe.
    pub(crate) fn new(n: u32, pipes: &'a [Pipe]) -> Result<PipeNetwork<'a>, SourceFault>
        ensures { Made (map_rules n pipes.now) (λ s. (s.count ≡ n) × (s.pipes.now ≡ pipes.now)) result }
    {
        if n == 0 || n > BOTTOM_STATIONS || pipes.len() > MOST_PIPES {
            return Err(SourceFault::WrongCount);
        }
        if let Some(i) = first_bad(n, pipes) {
            return Err(SourceFault::BadFigure(i));
        }
        Ok(PipeNetwork {
            count: n as usize,
            pipes,
        })
    }
}
