// Runs a sheet: the file that the first argument names, or else standard input.
// `--distances`, `--tariffs` and `--book` show built-in figures instead.
#![tactic(auto)]

mod examples;
mod story;

use examples::{show_distances, show_tariffs};
use sheet::run::run_sheet;
use std::alloc::Global;
use std::io::Read;
use std::{env, fs, io};
use story::show_book;

// One byte more than a sheet may have, so that a longer one is seen to be too long and no more of it is held.
const MOST_HELD: u64 = 65_537;

fn read_all(heap: Global, from: impl Read + Drop) -> io::Result<Vec<u8>> {
    let mut bytes = Vec::new(heap);
    let mut part = from.take(MOST_HELD);
    part.read_to_end(&mut bytes)?;
    Ok(bytes)
}

fn print_sheet(rt: &HostRuntime, sheet: Vec<u8>) -> anyhow::Result<()> {
    let printed = run_sheet(rt.alloc(), sheet.as_slice())?;
    rt.print(printed)?;
    Ok(())
}

fn run(rt: &HostRuntime) -> anyhow::Result<()> {
    let Some(word) = env::args(rt)?.nth(1) else {
        return print_sheet(rt, read_all(rt.alloc(), rt.stdin())?);
    };
    match word.as_str() {
        "--distances" => show_distances(rt),
        "--tariffs" => show_tariffs(rt),
        "--book" => show_book(rt),
        path => print_sheet(rt, read_all(rt.alloc(), fs::open(rt, path)?)?),
    }
}

fn main(rt: HostRuntime) -> anyhow::Result<()> {
    run(&rt)
}
