// A line as it stands in its sheet.
ghost use Rattle.std.specs.Prelude.{◌+◌, ◌≤◌, length};

mod methods;

pub use methods::{Lines, line_at};

// The `len` bytes at the place `at` of the sheet, and not these bytes alone: its words are told as parts of the whole sheet.
// A line feed ends it where the sheet goes on after them.
#[derive(Clone, Copy)]
pub struct RawLine<'a> {
    sheet: &'a [u8],
    at: usize,
    len: usize,
    ghost inside: { at + len ≤ length sheet.now },
}
