// The limits of a book.

// The points of each side.
pub const MOST_ENTRIES: usize = 32;

pub const MOST_EXITS: usize = 96;

// The planned lots of a side.
pub const MOST_LOTS: u32 = 40_000;

// The longest distance between two open points of opposite sides.
pub const FARTHEST_KM: u32 = 1_000;
