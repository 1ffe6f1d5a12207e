// Why a source or a book refuses. An upper part keeps a lower fault whole inside its own.
ghost use Rattle.std.specs.Prelude.{◌≡◌};
ghost use Rattle.terms.specs.Faults.{figure_number, source_refusal, book_refusal};
ghost use Rattle.terms.specs.declared.faults.SourceFault.TheVariants.{NoMemory};
ghost use Rattle.terms.specs.declared.faults.BookFault.TheVariants.{Source};
ghost use Rattle.terms.specs.declared.refusals.Refusal.{Refusal};

use crate::refusals::{Part, Refusal};
use std::alloc::AllocError;

// A fault tells the rule that was broken, the part that says so, and the place.
pub trait Fault: Copy {
    // what the rules say that it tells
    ghost told: { Self → Refusal };

    fn refusal(self) -> Refusal
        ensures { result ≡ told self };

    // The number of the rule that is broken, or 0 for want of memory.
    final fn number(self) -> u32
        ensures { result ≡ (told self).number }
    {
        self.refusal().number
    }

    final fn part(self) -> Part
        ensures { result ≡ (told self).part }
    {
        self.refusal().part
    }

    final fn place(self) -> usize
        ensures { result ≡ (told self).place }
    {
        self.refusal().place
    }
}

// The twelve figures of a closing, in the order in which they are given.
#[derive(Clone, Copy, PartialEq, Eq, Debug)]
pub enum ClosingFigure {
    Operating,
    Depreciation,
    Assets,
    Rate,
    Delivered,
    Loss,
    GasPrice,
    NonStandard,
    OtherRevenue,
    Justified,
    Realised,
    Index,
}

// Why a distance source cannot be made.
#[derive(Clone, Copy, PartialEq, Eq, Debug)]
pub enum SourceFault {
    // an end of a layer is no station of the source below
    NoStation,
    WrongCount,
    // the first bad figure or pipe, by its index
    BadFigure(usize),
    // want of memory breaks no rule
    NoMemory,
}

// Why a book refuses a call.
#[derive(Clone, Copy, PartialEq, Eq, Debug)]
pub enum BookFault {
    Source(SourceFault),
    KindNotOfSide,
    SideFull,
    NoStation,
    NoDistance,
    TooFar,
    NoPoint,
    TooManyLots,
    ReliefTooHigh,
    OutOfRange(ClosingFigure),
    BaseBelowZero,
    CarriedTooLarge,
    AllowedTooLarge,
    NoEntryShares,
    NoExitShares,
    NoProduct,
    MultiplierOutOfRange,
    NoTariff,
}

impl From<AllocError> for SourceFault {
    ghost from_gives = { λ _ r. r ≡ NoMemory };

    fn from(_e: AllocError) -> SourceFault {
        SourceFault::NoMemory
    }
}

impl From<SourceFault> for BookFault {
    ghost from_gives = { λ e r. r ≡ Source e };

    fn from(e: SourceFault) -> BookFault {
        BookFault::Source(e)
    }
}

impl ClosingFigure {
    // Its number among the twelve, from 1.
    pub fn number(self) -> usize
        ensures { result ≡ figure_number self }
    {
        self as usize + 1
    }
}

impl Fault for SourceFault {
    ghost told = { source_refusal };

    fn refusal(self) -> Refusal {
        let (number, index) = match self {
            SourceFault::NoStation => (3, 0),
            SourceFault::WrongCount => (18, 0),
            SourceFault::BadFigure(index) => (19, index),
            SourceFault::NoMemory => (0, 0),
        };
        Refusal {
            number,
            part: Part::Source,
            place: index,
        }
    }
}

impl Fault for BookFault {
    ghost told = { book_refusal };

    fn refusal(self) -> Refusal {
        let (number, figure) = match self {
            BookFault::Source(fault) => return fault.refusal(),
            BookFault::KindNotOfSide => (1, 0),
            BookFault::SideFull => (2, 0),
            BookFault::NoStation => (3, 0),
            BookFault::NoDistance => (4, 0),
            BookFault::TooFar => (5, 0),
            BookFault::NoPoint => (6, 0),
            BookFault::TooManyLots => (7, 0),
            BookFault::ReliefTooHigh => (8, 0),
            BookFault::OutOfRange(figure) => (9, figure.number()),
            BookFault::BaseBelowZero => (10, 0),
            BookFault::CarriedTooLarge => (11, 0),
            BookFault::AllowedTooLarge => (12, 0),
            BookFault::NoEntryShares => (13, 0),
            BookFault::NoExitShares => (14, 0),
            BookFault::NoProduct => (15, 0),
            BookFault::MultiplierOutOfRange => (16, 0),
            BookFault::NoTariff => (17, 0),
        };
        Refusal {
            number,
            part: Part::Book,
            place: figure,
        }
    }
}
