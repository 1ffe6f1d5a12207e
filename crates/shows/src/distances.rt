// The distances of any source, as lines of text.
ghost use Rattle.std.specs.Prelude.{◌≡◌, ◌++◌, IfOk, Some, string_bytes, OnOk};
ghost use Rattle.network.specs.Distances.{kms};
ghost use Rattle.shows.specs.Tables.{distance_text, cells, row_text, table_text};

use network::source::Source;
use std::alloc::{AllocError, Global};
use std::fmt;
use terms::measures::Km;

// A distance in km, or - where there is none.
#[derive(Clone, Copy)]
struct Distance(Option<Km>);

impl fmt::Display for Distance {
    ghost output = { λ d. Some (distance_text (kms d.0)) };

    fn fmt<W: fmt::Write>(&self, f: &mut fmt::Formatter<W>) -> fmt::Result {
        match self.0 {
            Some(Km(km)) => write!(f, "{km}"),
            None => write!(f, "-"),
        }
    }
}

// The distances from one station to all, each after a space.
fn put_distances<S: Source>(out: &mut String, source: &S, a: u32) -> Result<(), AllocError>
    ensures { OnOk result (string_bytes out.new ≡ string_bytes out.old ++ cells ((S.net source.now).distance a) (S.net source.now).stations) }
{
    for b in 0..source.stations() {
        let distance = Distance(source.distance(a, b));
        write!(out, " {distance}")?;
    }
    Ok(())
}

fn put_row<S: Source>(out: &mut String, source: &S, a: u32) -> Result<(), AllocError>
    ensures { OnOk result (string_bytes out.new ≡ string_bytes out.old ++ row_text (S.net source.now) a) }
{
    write!(out, "{a}:")?;
    put_distances(out, source, a)?;
    writeln!(out)
}

// The distances between all stations of a source.
pub fn distance_table<S: Source>(heap: Global, source: &S) -> Result<String, AllocError>
    ensures { IfOk result (λ s. string_bytes s ≡ table_text (S.net source.now)) }
{
    let mut out = String::new(heap);
    for a in 0..source.stations() {
        put_row(&mut out, source, a)?;
    }
    Ok(out)
}
