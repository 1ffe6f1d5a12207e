// The book, and runs of its calls.
ghost use Rattle.std.specs.Prelude.{◌≡◌, [], IfOk};
ghost use Rattle.network.specs.Meanings.{of_trunk};
ghost use Rattle.network.specs.Trunk.{trunk_net, trunk_rules};
ghost use Rattle.book.specs.Follows.{opened, done, closed, drawn};
ghost use Rattle.book.specs.Law.{Stands, Keeps, Run, Founded};

use crate::table::PointTable;
use network::source::Source;
use network::trunk::Trunk;
use pricing::decision::Draft;
use revenue::figures::{Closing, Figures};
use rules::calls::{Answer, Call};
use std::alloc::{AllocError, Global};
use terms::faults::BookFault;
use terms::measures::Lots;
use terms::points::{Kind, Side};

// A tariff book over a distance source. It is made empty, and handled by its five calls and by nothing else.
// A refused call changes nothing. No call allocates.
#[derive(Drop)]
pub struct Book<S: Source> {
    source: S,
    pub(crate) table: PointTable,
}

impl<S: Source> Book<S> {
    pub fn new(source: S) -> Book<S>
        ensures same { result.source ≡ source }
        ensures law { Stands (S.Source.net source) [] result.table }
    {
        Book {
            source,
            table: PointTable::new(),
        }
    }

    // Opens a point, and gives its number: points are numbered from 0 over both sides.
    pub fn open(&mut self, side: Side, kind: Kind, station: u32) -> Result<u32, BookFault>
        ensures same { self.new.source ≡ self.old.source }
        ensures keeps { Keeps (S.Source.net self.old.source) self.old.table (Call.Open side kind station) (opened result) self.new.table }
    {
        self.table.open(&self.source, side, kind, station)
    }

    // Plans the lots of a point.
    pub fn plan(&mut self, point: u32, lots: Lots) -> Result<(), BookFault>
        ensures same { self.new.source ≡ self.old.source }
        ensures keeps { Keeps (S.Source.net self.old.source) self.old.table (Call.Plan point lots) (done result) self.new.table }
    {
        self.table.plan(point, lots)
    }

    // Sets the storage relief of a side, in ten-thousandths.
    pub fn relieve(&mut self, side: Side, parts: u32) -> Result<(), BookFault>
        ensures same { self.new.source ≡ self.old.source }
        ensures keeps { Keeps (S.Source.net self.old.source) self.old.table (Call.Relieve side parts) (done result) self.new.table }
    {
        self.table.relieve(side, parts)
    }

    // Closes a period on the amount that is carried on to it.
    pub fn close(&mut self, figures: Figures) -> Result<Closing, BookFault>
        ensures same { self.new.source ≡ self.old.source }
        ensures keeps { Keeps (S.Source.net self.old.source) self.old.table (Call.Close figures) (closed result) self.new.table }
    {
        self.table.close(figures)
    }

    // Drafts the six shares and tariffs of the allowed revenue. The book stays as it is.
    pub fn draw(&self) -> Result<Draft, BookFault>
        ensures { Keeps (S.Source.net self.now.source) self.now.table Call.Draw (drawn result) self.now.table }
    {
        self.table.draw(&self.source)
    }

    // Any call, with what it comes back with.
    pub fn handle(&mut self, call: Call) -> Result<Answer, BookFault>
        ensures same { self.new.source ≡ self.old.source }
        ensures keeps { Keeps (S.Source.net self.old.source) self.old.table call result self.new.table }
    {
        match call {
            Call::Open(side, kind, station) => self.open(side, kind, station).map(Answer::Opened),
            Call::Plan(point, lots) => self.plan(point, lots).map(|()| Answer::Done),
            Call::Relieve(side, parts) => self.relieve(side, parts).map(|()| Answer::Done),
            Call::Close(figures) => self.close(figures).map(Answer::Closed),
            Call::Draw => self.draw().map(|draft| Answer::Drawn(draft.figures())),
        }
    }
}

impl Book<Trunk> {
    // An empty book over a trunk, from its positions in km.
    pub fn on_trunk(heap: Global, positions: &[u32]) -> Result<Book<Trunk>, BookFault>
        ensures { Founded (trunk_rules positions.now) (λ b. (of_trunk b.source ≡ trunk_net positions.now) × Stands (trunk_net positions.now) [] b.table) result }
    {
        let trunk = Trunk::new(heap, positions)?;
        Ok(Book::new(trunk))
    }
}

// A new book, after these calls, with what each of them came back with.
pub fn replay<S: Source + Drop>(
    heap: Global,
    source: S,
    calls: &[Call],
) -> Result<(Book<S>, Vec<Result<Answer, BookFault>>), AllocError>
    ensures { IfOk result (λ x. (x.0.source ≡ source) × Run (S.Source.net source) calls.now x.1.items x.0.table) }
{
    let mut book = Book::new(source);
    let mut outcomes = Vec::new(heap);
    for call in calls {
        let outcome = book.handle(*call);
        outcomes.push(outcome)?;
    }
    Ok((book, outcomes))
}
