// A draft of the six shares and tariffs, and the decision that approving it makes.
ghost use Rattle.std.specs.Prelude.{◌≡◌, ◌≤◌, IfOk};
ghost use Rattle.pricing.specs.Limits.{most_tariff};
ghost use Rattle.pricing.specs.Tariffs.{highest};
ghost use Rattle.pricing.specs.Rules.{Answered};
ghost use Rattle.pricing.specs.Drafts.{drawing_of, draw_rules, figures_of, Promised};

use crate::amount::Amount;
use crate::figures::TariffFigures;
use crate::plan::SidePlan;
use crate::tariffs::side_figures;
use terms::faults::BookFault;

mod lines;
mod prices;

// Six shares and tariffs that are not yet approved. Nothing is priced or printed from a draft.
// The bound of the tariffs stands here: a bounded type in the figures themselves would ask more of who makes figures.
#[derive(Drop)]
pub struct Draft {
    figures: TariffFigures,
    ghost entries_bounded: { highest figures.entries ≤ most_tariff },
    ghost exits_bounded: { highest figures.exits ≤ most_tariff },
}

// An approved decision: short prices are taken from the draft that it was, and printing it uses it up.
#[derive(Drop)]
pub struct Approved {
    draft: Draft,
}

// A draft of what the allowed revenue comes to on both sides.
pub fn draw(allowed: Amount, entries: SidePlan, exits: SidePlan) -> Result<Draft, BookFault>
    ensures drawn { Answered (draw_rules (drawing_of allowed.dinars.0 entries exits)) (λ d. d.figures ≡ figures_of (drawing_of allowed.dinars.0 entries exits)) result }
    ensures promised { IfOk result (λ d. Promised (drawing_of allowed.dinars.0 entries exits) d.figures) }
{
    let (of_entries, of_exits) = allowed.halves();
    let entry_side = entries.sharing(of_entries).ok_or(BookFault::NoEntryShares)?;
    let exit_side = exits.sharing(of_exits).ok_or(BookFault::NoExitShares)?;
    let figures = TariffFigures {
        entries: side_figures(entry_side, entries.lots),
        exits: side_figures(exit_side, exits.lots),
    };
    Ok(Draft { figures })
}

impl Draft {
    // The figures, to look at.
    pub fn figures(&self) -> TariffFigures
        ensures { result ≡ self.now.figures }
    {
        self.figures
    }

    // Approves the draft, which uses it up.
    pub fn approve(self) -> Approved
        ensures { result.draft ≡ self }
    {
        Approved { draft: self }
    }
}
