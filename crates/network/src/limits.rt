// The limits of distance sources.

// the stations of any source
pub const MOST_STATIONS: u32 = 1_000;

// the stations of a trunk, a distance table or a pipe map
pub const BOTTOM_STATIONS: u32 = 64;

// the longest distance in km, which stands for that length or more; the highest position and the longest pipe or link too
pub const LONGEST: u32 = 9_999;

// the same as a figure of a distance table
pub const LONGEST_FIGURE: u16 = LONGEST as u16;

// the figure of a distance table that stands for no distance; figures are kept as they are lent, so an Option in each would be one copy more
pub const NONE_FIGURE: u16 = 65_535;

// the pipes of a pipe map
pub const MOST_PIPES: usize = 200;
