// What the lines of a sheet ask.
ghost use Rattle.std.specs.Prelude.{◌≡◌, map};
ghost use Rattle.lines.specs.Closings.{ReadsClosing};
ghost use Rattle.lines.specs.Meant.{meaning};
ghost use Rattle.std.specs.Option.{ok_or};
ghost use Rattle.lines.specs.declared.faults.SheetFault.TheVariants.{BadNumber};
ghost use Rattle.lines.specs.Numbers.{number_of, signed_of};
ghost use Rattle.lines.specs.Reading.{figure_word, closing_of, figures_of, read_close, sheet_fits, DueOrNoMemory};
ghost use Rattle.lines.specs.Seen.{text_of, raw_of};

use crate::faults::SheetFault;
use crate::line::{Line, parse};
use crate::numbers::{number, signed};
use crate::raw::RawLine;
use crate::words::{Word, words_of};
use revenue::figures::Figures;
use revenue::units::{HundredThousandths, HundredthsOfPercent, MegawattHours, ParasPerKwh};
use std::alloc::Global;
use terms::faults::ClosingFigure;
use terms::measures::Dinars;

// The bytes of a sheet.
pub const LONGEST_SHEET: usize = 65_536;
// The bytes of a line before its line feed.
pub const LONGEST_LINE: usize = 400;

// A sheet that is too long is refused as a whole, as its line 0.
pub fn check_sheet(sheet: &[u8]) -> Result<(), SheetFault>
    ensures { result ≡ sheet_fits sheet.now }
{
    if sheet.len() > LONGEST_SHEET {
        return Err(SheetFault::TooLong(0));
    }
    Ok(())
}

// The word that writes a figure, or the empty word past the last.
fn word_of<'a>(words: &[Word<'a>], which: ClosingFigure) -> &'a [u8]
    ensures { result.now ≡ figure_word (map text_of words.now) which }
{
    words.get(which.number() - 1).map_or(&[], |word| word.text)
}

// A figure of line `n`.
fn figure(word: &[u8], n: usize) -> Result<u64, SheetFault>
    ensures { result ≡ ok_or (number_of word.now) (BadNumber n) }
{
    number(word).map(u64::from).ok_or(SheetFault::BadNumber(n))
}

// A figure that may bear a minus: another reader and another number, which is no plainer as one function with `figure`.
fn signed_figure(word: &[u8], n: usize) -> Result<i64, SheetFault>
    ensures { result ≡ ok_or (signed_of word.now) (BadNumber n) }
{
    signed(word).map(i64::from).ok_or(SheetFault::BadNumber(n))
}

// The figures of a closing, read from the left.
fn closing(words: &[Word<'_>], n: usize) -> Result<Figures, SheetFault>
    ensures { result ≡ closing_of n (map text_of words.now) }
{
    Ok(Figures {
        operating: Dinars(figure(word_of(words, ClosingFigure::Operating), n)?),
        depreciation: Dinars(figure(word_of(words, ClosingFigure::Depreciation), n)?),
        assets: Dinars(figure(word_of(words, ClosingFigure::Assets), n)?),
        rate: HundredthsOfPercent(figure(word_of(words, ClosingFigure::Rate), n)?),
        delivered: MegawattHours(figure(word_of(words, ClosingFigure::Delivered), n)?),
        loss: HundredThousandths(figure(word_of(words, ClosingFigure::Loss), n)?),
        price: ParasPerKwh(figure(word_of(words, ClosingFigure::GasPrice), n)?),
        nonstandard: Dinars(figure(word_of(words, ClosingFigure::NonStandard), n)?),
        other: Dinars(figure(word_of(words, ClosingFigure::OtherRevenue), n)?),
        justified: Dinars(figure(word_of(words, ClosingFigure::Justified), n)?),
        realised: Dinars(figure(word_of(words, ClosingFigure::Realised), n)?),
        index: HundredthsOfPercent(signed_figure(word_of(words, ClosingFigure::Index), n)?),
    })
}

// The figures that line `n` gives.
pub fn figures(line: Line<'_>, n: usize) -> Result<Figures, SheetFault>
    ensures { result ≡ figures_of n (meaning line.entry) }
{
    match line {
        Line::Close(words) => closing(words, n),
    }
}

// The figures of the closing that line `n` asks for.
#[tactic(auto, using(crate::proofs::Inverse::closing_law))]
pub fn read_close(heap: Global, line: RawLine<'_>, n: usize) -> Result<Figures, SheetFault>
    ensures due { DueOrNoMemory (read_close n (raw_of line.entry)) result }
    ensures law { ReadsClosing (raw_of line.entry) result }
{
    if !line.ended() || line.bytes().len() > LONGEST_LINE {
        return Err(SheetFault::TooLong(n));
    }
    let words = words_of(heap, line)?;
    let asked = parse(words.as_slice(), n)?;
    figures(asked, n)
}
