// The words of a line.
ghost use Rattle.std.specs.Prelude.{◌≡◌, ◌+◌, ◌^◌, ◌<◌, map, length, IfOk};
ghost use Rattle.std.specs.List.{AllByRecursion};
ghost use Rattle.lines.specs.Words.{words, placed, WordsOf};
ghost use Rattle.lines.specs.Seen.{sheet_of, bytes_of, text_of, seen, PartOf};

use crate::bytes::SPACE;
use crate::raw::RawLine;
use std::alloc::{AllocError, Global};

// A part of the sheet, with its place there.
#[derive(Clone, Copy)]
pub struct Word<'a> {
    pub text: &'a [u8],
    pub at: usize,
}

// The words of a line that stands at the place `at` of its sheet. `split` gives no places, so they are summed up beside it.
fn split<'a>(heap: Global, line: &'a [u8], at: usize) -> Result<Vec<Word<'a>>, AllocError>
    requires { at + length line.now < 2 ^ 64 }
    ensures { IfOk result (λ v. map seen v.items ≡ placed at (words line.now)) }
{
    let mut out = Vec::new(heap);
    let mut i = 0;
    for text in line.split(|b| *b == SPACE) {
        out.push(Word { text, at: at + i })?;
        i += text.len() + 1;
    }
    Ok(out)
}

// The words of a line, each with its place in the whole sheet.
pub fn words_of(heap: Global, line: RawLine<'_>) -> Result<Vec<Word<'_>>, AllocError>
    ensures seen { IfOk result (λ v. map seen v.items ≡ placed line.entry.at (words (bytes_of line.entry))) }
    ensures parts { IfOk result (λ v. AllByRecursion (PartOf (sheet_of line.entry)) v.items) }
    ensures law { IfOk result (λ v. WordsOf (bytes_of line.entry) (map text_of v.items)) }
{
    split(heap, line.bytes(), line.place())
}
