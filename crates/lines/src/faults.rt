// Why a sheet refuses a line. The book's fault stays whole inside.
ghost use Rattle.std.specs.Prelude.{◌≡◌};
ghost use Rattle.lines.specs.Faults.{sheet_refusal};
ghost use Rattle.lines.specs.declared.faults.SheetFault.TheVariants.{Book, NoMemory};

use std::alloc::AllocError;
use terms::faults::{BookFault, Fault};
use terms::refusals::{Part, Refusal};

// Each fault of the sheet's own tells its line, so a line's number goes with it to all that judges it.
#[derive(Clone, Copy, PartialEq, Eq, Debug)]
pub enum SheetFault {
    Book(BookFault),
    UnknownWord(usize),
    BadNumber(usize),
    WordCount(usize),
    // the line is too long or unended; line 0 stands for the whole sheet
    TooLong(usize),
    // want of memory breaks no rule
    NoMemory,
}

impl From<BookFault> for SheetFault {
    ghost from_gives = { λ e r. r ≡ Book e };

    fn from(e: BookFault) -> SheetFault {
        SheetFault::Book(e)
    }
}

impl From<AllocError> for SheetFault {
    ghost from_gives = { λ e r. r ≡ NoMemory };

    fn from(_e: AllocError) -> SheetFault {
        SheetFault::NoMemory
    }
}

impl Fault for SheetFault {
    ghost told = { sheet_refusal };

    fn refusal(self) -> Refusal {
        let (number, line) = match self {
            SheetFault::Book(fault) => return fault.refusal(),
            SheetFault::UnknownWord(line) => (20, line),
            SheetFault::BadNumber(line) => (21, line),
            SheetFault::WordCount(line) => (22, line),
            SheetFault::TooLong(line) => (23, line),
            SheetFault::NoMemory => (0, 0),
        };
        Refusal {
            number,
            part: Part::Sheet,
            place: line,
        }
    }
}
