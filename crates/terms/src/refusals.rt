// What a refusal tells.

// The part that raised a refusal.
#[derive(Clone, Copy, PartialEq, Eq, Debug)]
pub enum Part {
    Source,
    Book,
    Sheet,
}

// The number of the rule that was broken, the part that says so, and the place: an index, a figure's number or a line. They are numbers,
// since they are printed and compared as such (the faults are enums), and 0 where the rule names no place, or no rule is broken.
#[derive(Clone, Copy, PartialEq, Eq, Debug)]
pub struct Refusal {
    pub number: u32,
    pub part: Part,
    pub place: usize,
}
