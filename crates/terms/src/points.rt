// The sides of the grid, the kinds of points, and the letters that write them.
ghost use Rattle.std.specs.Prelude.{◌≡◌, Some, [], ◌∷◌};
ghost use Rattle.terms.specs.Points.{side_letter, side_of, kind_letter, kind_of, of_side};
ghost use Rattle.terms.specs.Letters.{Reads};

use std::fmt;

// Where gas comes in, and where it goes out.
#[derive(Clone, Copy, PartialEq, Eq, Debug)]
pub enum Side {
    Entry,
    Exit,
}

// What a point joins the grid to. The points of one side and kind form an element.
#[derive(Clone, Copy, PartialEq, Eq, Debug)]
pub enum Kind {
    Transmission,
    Production,
    Storage,
    Local,
    Interconnector,
}

// A letter that writes nothing of the kind that was asked for.
#[derive(Clone, Copy, PartialEq, Eq, Debug)]
pub struct UnknownLetter(pub char);

impl From<Side> for char {
    ghost from_gives = { λ side c. c ≡ side_letter side };

    fn from(side: Side) -> char {
        match side {
            Side::Entry => 'E',
            Side::Exit => 'X',
        }
    }
}

// The side that a letter writes.
impl TryFrom<char> for Side {
    type Error = UnknownLetter;

    ghost try_from_gives = { Reads side_letter side_of };

    fn try_from(c: char) -> Result<Side, UnknownLetter> {
        match c {
            'E' => Ok(Side::Entry),
            'X' => Ok(Side::Exit),
            _ => Err(UnknownLetter(c)),
        }
    }
}

impl fmt::Display for Side {
    ghost output = { λ side. Some (side_letter side ∷ []) };

    fn fmt<W: fmt::Write>(&self, f: &mut fmt::Formatter<W>) -> fmt::Result {
        let side = *self;
        f.write_char(char::from(side))
    }
}

impl Kind {
    // Whether a side has points of this kind. Side and kind stay two values in calls: a type of pairs that fit could not be refused.
    pub fn is_of(self, side: Side) -> bool
        ensures { result ≡ of_side side self }
    {
        matches!(
            (side, self),
            (_, Kind::Storage)
                | (Side::Entry, Kind::Transmission | Kind::Production)
                | (Side::Exit, Kind::Local | Kind::Interconnector)
        )
    }
}

impl From<Kind> for char {
    ghost from_gives = { λ kind c. c ≡ kind_letter kind };

    fn from(kind: Kind) -> char {
        match kind {
            Kind::Transmission => 'T',
            Kind::Production => 'P',
            Kind::Storage => 'S',
            Kind::Local => 'L',
            Kind::Interconnector => 'I',
        }
    }
}

// The kind that a letter writes.
impl TryFrom<char> for Kind {
    type Error = UnknownLetter;

    ghost try_from_gives = { Reads kind_letter kind_of };

    fn try_from(c: char) -> Result<Kind, UnknownLetter> {
        match c {
            'T' => Ok(Kind::Transmission),
            'P' => Ok(Kind::Production),
            'S' => Ok(Kind::Storage),
            'L' => Ok(Kind::Local),
            'I' => Ok(Kind::Interconnector),
            _ => Err(UnknownLetter(c)),
        }
    }
}

impl fmt::Display for Kind {
    ghost output = { λ kind. Some (kind_letter kind ∷ []) };

    fn fmt<W: fmt::Write>(&self, f: &mut fmt::Formatter<W>) -> fmt::Result {
        let kind = *self;
        f.write_char(char::from(kind))
    }
}
