//! The work of `timing`, exported to C: an export has a body and a name of its own. A `Global` takes no bytes, so a C caller passes nothing for it.
#![tactic(auto)]

ghost use Rattle.std.specs.Prelude.{◌*◌, ◌≤◌};
ghost use Rattle.network.specs.Limits.{longest};

use std::alloc::Global;

// How many of so many maps were made: all, unless memory was wanting.
#[unsafe(no_mangle)]
pub extern "C" fn timing_maps(heap: Global, turns: u32) -> u32
    ensures { result ≤ turns }
{
    timing::timing_maps(heap, turns)
}

#[unsafe(no_mangle)]
pub extern "C" fn timing_distances(heap: Global, turns: u32) -> u64
    ensures { result ≤ longest * turns }
{
    timing::timing_distances(heap, turns)
}

#[unsafe(no_mangle)]
pub extern "C" fn timing_three_links(heap: Global, turns: u32) -> u64
    ensures { result ≤ longest * turns }
{
    timing::timing_three_links(heap, turns)
}

#[unsafe(no_mangle)]
pub extern "C" fn timing_trunk_draws(heap: Global, turns: u32) -> u32
    ensures { result ≤ turns }
{
    timing::timing_trunk_draws(heap, turns)
}

#[unsafe(no_mangle)]
pub extern "C" fn timing_map_draws(heap: Global, turns: u32) -> u32
    ensures { result ≤ turns }
{
    timing::timing_map_draws(heap, turns)
}
