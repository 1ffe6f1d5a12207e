use terms::measures::Km;

// A pipe between two stations, for both senses.
#[derive(Clone, Copy, PartialEq, Eq, Debug)]
pub struct Pipe {
    pub from: u32,
    pub to: u32,
    pub length: Km,
}
