// A side's three elements.

// One of something for each. The main element is transmission on entries and local consumption on exits, the other one production
// on entries and the interconnector on exits.
#[derive(Clone, Copy, PartialEq, Eq, Debug)]
pub struct Elements<T> {
    pub main: T,
    pub other: T,
    pub storage: T,
}
