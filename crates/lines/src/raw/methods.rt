ghost use Rattle.std.specs.Prelude.{◌≡◌, ◌≤◌, [], length, drop, MatchOption};
ghost use Rattle.std.specs.Iterator.{YieldsFirstBy, item_count};
ghost use Rattle.lines.specs.Lines.{lines, LinesOf};
ghost use Rattle.lines.specs.Seen.{sheet_of, bytes_of, raw_of, next_of, BeginsAt, lines_left, FindsNext};

use super::RawLine;
use crate::bytes::LINE_FEED;

// The line that begins at the place `at` of a sheet, or none at the sheet's end and past it.
pub fn line_at(sheet: &[u8], at: usize) -> Option<RawLine<'_>>
    ensures found { MatchOption result (lines (drop at sheet.now) ≡ []) (BeginsAt sheet.now at) }
    ensures law { LinesOf sheet.now (lines sheet.now) }
{
    if at >= sheet.len() {
        return None;
    }
    let rest = &sheet[at..];
    let len = rest
        .iter()
        .position(|b| *b == LINE_FEED)
        .unwrap_or(rest.len());
    Some(RawLine { sheet, at, len })
}

// The lines of a sheet from the place `at` on.
#[derive(Drop)]
pub struct Lines<'a> {
    sheet: &'a [u8],
    at: usize,
}

impl<'a> Lines<'a> {
    // All lines of a sheet.
    pub fn new(sheet: &'a [u8]) -> Lines<'a>
        ensures same { result.sheet.now ≡ sheet.now }
        ensures first { result.at ≡ 0 }
        ensures left { lines_left result ≡ lines sheet.now }
    {
        Lines { sheet, at: 0 }
    }
}

impl<'a> Iterator for Lines<'a> {
    type Item = RawLine<'a>;

    // Each line is the one that begins where the lines before it end, and stands in the sheet itself.
    ghost next_gives = { λ s r t. YieldsFirstBy raw_of lines_left s r t × FindsNext s r t };

    ghost remaining = { item_count lines_left };

    fn next(&mut self) -> Option<RawLine<'a>> {
        let line = line_at(self.sheet, self.at)?;
        self.at = line.next();
        Some(line)
    }
}

impl<'a> RawLine<'a> {
    // Its bytes, without the line feed.
    pub(crate) fn bytes(self) -> &'a [u8]
        ensures { result.now ≡ bytes_of self.entry }
    {
        &self.sheet[self.at..self.at + self.len]
    }

    // Where it begins in its sheet.
    pub(crate) fn place(self) -> usize
        ensures { result ≡ self.entry.at }
    {
        self.at
    }

    // Whether a line feed ends it.
    pub fn ended(self) -> bool
        ensures { result ≡ (raw_of self.entry).ended }
    {
        self.at + self.len < self.sheet.len()
    }

    // Where the next line begins, if there is one.
    pub fn next(self) -> usize
        ensures value { result ≡ next_of self.entry }
        ensures bound { result ≤ length (sheet_of self.entry) }
    {
        if self.ended() {
            self.at + self.len + 1
        } else {
            self.sheet.len()
        }
    }
}
