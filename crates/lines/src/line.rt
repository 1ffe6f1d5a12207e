// A line by its first word, with the words after it.
ghost use Rattle.std.specs.Prelude.{◌≡◌, map, drop, IfOk};
ghost use Rattle.lines.specs.Meant.{line_words, meant};
ghost use Rattle.lines.specs.Reading.{verb_of, asked, command_of};
ghost use Rattle.lines.specs.Seen.{text_of};

use crate::faults::SheetFault;
use crate::words::Word;

// The figures of a closing.
const CLOSING_FIGURES: usize = 12;

// Each case keeps its words as parts of the sheet. Those of a closing are a slice and no array of twelve, which would ask more of who
// makes a line than is asked here; `parse` gives twelve.
#[derive(Clone, Copy)]
pub enum Line<'a> {
    Close(&'a [Word<'a>]),
}

// The first words.
#[derive(Clone, Copy, PartialEq, Eq, Debug)]
pub enum Verb {
    Close,
}

fn read_verb(w: &[u8]) -> Option<Verb>
    ensures { result ≡ verb_of w.now }
{
    match w {
        b"close" => Some(Verb::Close),
        _ => None,
    }
}

// The line that a first word and the words after it make.
fn shape<'a>(verb: Verb, words: &'a [Word<'a>], n: usize) -> Result<Line<'a>, SheetFault>
    ensures kept { IfOk result (λ l. line_words l ≡ words.now) }
    ensures asks { meant result ≡ asked n verb (map text_of words.now) }
{
    match verb {
        Verb::Close if words.len() == CLOSING_FIGURES => Ok(Line::Close(words)),
        Verb::Close => Err(SheetFault::WordCount(n)),
    }
}

// The line that the words of line `n` make.
pub fn parse<'a>(words: &'a [Word<'a>], n: usize) -> Result<Line<'a>, SheetFault>
    ensures kept { IfOk result (λ l. line_words l ≡ drop 1 words.now) }
    ensures asks { meant result ≡ command_of n (map text_of words.now) }
{
    let (first, rest) = words.split_first().ok_or(SheetFault::UnknownWord(n))?;
    let verb = read_verb(first.text).ok_or(SheetFault::UnknownWord(n))?;
    shape(verb, rest, n)
}
