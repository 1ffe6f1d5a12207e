// What a book is asked, and what it answers.
use pricing::figures::TariffFigures;
use revenue::figures::{Closing, Figures};
use terms::measures::Lots;
use terms::points::{Kind, Side};

// A book is handled by these calls and by nothing else. Its methods take the words of a call one by one, as here: a struct for some of
// them would be opened at once.
#[derive(Clone, Copy, PartialEq, Eq, Debug)]
pub enum Call {
    // a point of this side and kind at this station
    Open(Side, Kind, u32),
    // the lots of the point with this number
    Plan(u32, Lots),
    // the storage relief of a side, in ten-thousandths
    Relieve(Side, u32),
    // a period, by its twelve figures
    Close(Figures),
    // the tariffs of the allowed revenue
    Draw,
}

// What an accepted call answers: figures to look at. Nobody approves, prices or prints from these.
#[derive(Clone, Copy, PartialEq, Eq, Debug)]
pub enum Answer {
    // the point's number
    Opened(u32),
    Done,
    Closed(Closing),
    Drawn(TariffFigures),
}
