// The lines that a sheet prints.
ghost use Rattle.std.specs.Prelude.{◌≡◌, IfOk, Some, string_bytes};
ghost use Rattle.sheet.specs.Printed.{refused_text, closed_text};

use revenue::figures::Closing;
use std::alloc::{AllocError, Global};
use std::fmt;

// The refusal of a line, with its number.
#[derive(Clone, Copy)]
pub struct Refused {
    pub line: usize,
    pub number: u32,
}

impl fmt::Display for Refused {
    ghost output = { λ r. Some (refused_text r.line r.number) };

    fn fmt<W: fmt::Write>(&self, f: &mut fmt::Formatter<W>) -> fmt::Result {
        let Refused { line, number } = *self;
        write!(f, "line {line} refused {number}\n")
    }
}

// The allowed revenue of a closing and the amount carried on.
#[derive(Clone, Copy)]
pub struct Closed(pub Closing);

impl fmt::Display for Closed {
    ghost output = { λ c. Some (closed_text c.0) };

    fn fmt<W: fmt::Write>(&self, f: &mut fmt::Formatter<W>) -> fmt::Result {
        let allowed = self.0.allowed.0;
        let carried = self.0.rest.0;
        write!(f, "R {allowed} {carried}\n")
    }
}

pub fn refused_line(heap: Global, line: usize, number: u32) -> Result<String, AllocError>
    ensures { IfOk result (λ s. string_bytes s ≡ refused_text line number) }
{
    Refused { line, number }.to_string(heap)
}

pub fn closed_line(heap: Global, closing: Closing) -> Result<String, AllocError>
    ensures { IfOk result (λ s. string_bytes s ≡ closed_text closing) }
{
    Closed(closing).to_string(heap)
}
