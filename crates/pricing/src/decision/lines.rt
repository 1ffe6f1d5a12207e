// The six lines of an approved decision.
ghost use Rattle.std.specs.Prelude.{◌≡◌, IfOk, Some, string_bytes};
ghost use Rattle.pricing.specs.Lines.{line_text, decision_text};

use crate::decision::Approved;
use crate::figures::{ElementFigures, TariffFigures};
use std::alloc::{AllocError, Global};
use std::fmt;
use terms::points::{Kind, Side};

// An element's line.
#[derive(Drop)]
struct Line(Side, Kind, ElementFigures);

impl fmt::Display for Line {
    ghost output = { λ l. Some (line_text l.0 l.1 l.2) };

    fn fmt<W: fmt::Write>(&self, f: &mut fmt::Formatter<W>) -> fmt::Result {
        let Line(side, kind, element) = self;
        let share = element.share.0;
        match element.tariff {
            Some(tariff) => {
                let steps = tariff.0;
                write!(f, "{side} {kind} {share} {steps}\n")
            }
            None => write!(f, "{side} {kind} {share} -\n"),
        }
    }
}

impl Approved {
    // Prints the decision, which uses it up.
    pub fn lines(self, heap: Global) -> Result<String, AllocError>
        ensures { IfOk result (λ s. string_bytes s ≡ decision_text self.draft.figures) }
    {
        let TariffFigures { entries, exits } = self.draft.figures;
        let transmission = Line(Side::Entry, Kind::Transmission, entries.main);
        let production = Line(Side::Entry, Kind::Production, entries.other);
        let from_storage = Line(Side::Entry, Kind::Storage, entries.storage);
        let local = Line(Side::Exit, Kind::Local, exits.main);
        let interconnector = Line(Side::Exit, Kind::Interconnector, exits.other);
        let to_storage = Line(Side::Exit, Kind::Storage, exits.storage);
        format!(in heap;
            "{transmission}{production}{from_storage}{local}{interconnector}{to_storage}"
        )
    }
}
