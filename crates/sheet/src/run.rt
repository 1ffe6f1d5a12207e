// A sheet of closings, line by line.
ghost use Rattle.std.specs.Prelude.{◌≡◌, ◌≤◌, length, IfOk, string_bytes, unsigned_abs};
ghost use Rattle.revenue.specs.Limits.{most_carried};
ghost use Rattle.lines.specs.Reading.{read_close};
ghost use Rattle.lines.specs.Seen.{raw_of};
ghost use Rattle.sheet.specs.Steps.{ComesOrNoMemory, Turns};
ghost use Rattle.lines.specs.Lines.{lines};
ghost use Rattle.lines.specs.Limits.{longest_sheet};
ghost use Rattle.sheet.specs.Meaning.{Printed, Output};

use crate::print::{Closed, Refused, refused_line};
use lines::faults::SheetFault;
use lines::raw::{Lines, RawLine};
use lines::reading::{check_sheet, read_close};
use revenue::carried::Carried;
use revenue::figures::Closing;
use revenue::period::close;
use std::alloc::{AllocError, Global};
use terms::faults::Fault;

// What line `n` comes back with.
#[tactic(auto, using(crate::proofs::Turns::misread_comes, crate::proofs::Turns::closed_comes))]
fn close_line(
    heap: Global,
    line: RawLine<'_>,
    n: usize,
    carried: Carried,
) -> Result<Closing, SheetFault>
    ensures comes { ComesOrNoMemory carried.amount.0 (read_close n (raw_of line.entry)) result }
    ensures within { IfOk result (λ c. unsigned_abs c.rest.0 ≤ most_carried) }
{
    let figures = read_close(heap, line, n)?;
    Ok(close(figures, carried)?)
}

// Runs line `n`, puts what it prints after what is printed, and gives what is then carried on.
fn take_line(
    heap: Global,
    line: RawLine<'_>,
    n: usize,
    carried: Carried,
    out: &mut String,
) -> Result<Carried, AllocError>
    ensures { IfOk result (λ next. Turns n carried.amount.0 (raw_of line.entry) (string_bytes out.old) (string_bytes out.new) next.amount.0) }
{
    match close_line(heap, line, n, carried) {
        Ok(closing) => {
            let closed = Closed(closing);
            write!(out, "{closed}")?;
            Ok(Carried::new(closing.rest).unwrap())
        }
        // no `?` in its place: every other fault is printed, and this one ends the run
        Err(SheetFault::NoMemory) => Err(AllocError),
        Err(fault) => {
            let refused = Refused {
                line: n,
                number: fault.number(),
            };
            write!(out, "{refused}")?;
            Ok(carried)
        }
    }
}

// Runs the lines of a sheet that is not too long.
fn run_lines(heap: Global, sheet: &[u8]) -> Result<String, AllocError>
    requires { length sheet.now ≤ longest_sheet }
    ensures { IfOk result (λ out. Printed (lines sheet.now) (string_bytes out)) }
{
    let mut out = String::new(heap);
    let mut carried = Carried::nothing();
    for (n, line) in (1..).zip(Lines::new(sheet)) {
        carried = take_line(heap, line, n, carried, &mut out)?;
    }
    Ok(out)
}

// What a sheet prints.
#[tactic(auto, using(crate::proofs::Outputs::output_fits, crate::proofs::Outputs::output_long))]
pub fn run_sheet(heap: Global, sheet: &[u8]) -> Result<String, AllocError>
    ensures { IfOk result (λ out. Output sheet.now (string_bytes out)) }
{
    match check_sheet(sheet) {
        Ok(()) => run_lines(heap, sheet),
        Err(fault) => refused_line(heap, fault.place(), fault.number()),
    }
}
