// A point as a book's table holds it.
use terms::measures::Lots;
use terms::points::Kind;

#[derive(Clone, Copy, PartialEq, Eq, Debug)]
pub struct PointRecord {
    pub number: u32,
    pub kind: Kind,
    pub station: u32,
    pub lots: Lots,
}
