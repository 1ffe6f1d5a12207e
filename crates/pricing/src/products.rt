// Capacity products: terms with their letters, numbers and multipliers, and how long a product runs.
ghost use Rattle.std.specs.Prelude.{◌≡◌, ◌<◌, ◌≤◌, MatchBool};
ghost use Rattle.terms.specs.Letters.{Reads};
ghost use Rattle.pricing.specs.Limits.{last_quarter, last_month, longest_year};
ghost use Rattle.pricing.specs.Products.{term_letter, term_of, Exists, NoSuch, InRange, OutOfRange, month_days, quarter_days, runs_in, year_in};

use crate::year::Year;
use terms::points::UnknownLetter;

// The last quarter of a gas year, counted from 0.
const LAST_QUARTER: u32 = 3;

// The last month of a gas year, counted from 0.
const LAST_MONTH: u32 = 11;

const HOURS_PER_DAY: u32 = 24;

// A multiplier of 1, in hundredths: the least of every product.
pub const MULTIPLIER_ONE: u32 = 100;

// The largest multiplier of quarters and months.
const MOST_BY_MONTH: u32 = 150;

// The largest multiplier of a day and of what runs within a day.
const MOST_BY_DAY: u32 = 300;

const MONTHS_PER_QUARTER: usize = 3;

// The days of the months of a gas year, from October.
const MONTH_DAYS: [u64; 12] = [31, 30, 31, 31, 28, 31, 30, 31, 30, 31, 31, 30];

// For how long capacity is booked.
#[derive(Clone, Copy, PartialEq, Eq, Debug)]
pub enum Term {
    Year,
    Quarter,
    Month,
    Day,
    // some hours within a day
    Hours,
}

// A term and any number, so that one that is no product can be said, and refused in its turn.
#[derive(Clone, Copy, PartialEq, Eq, Debug)]
pub struct Product {
    pub term: Term,
    pub number: u32,
}

impl From<Term> for char {
    ghost from_gives = { λ t c. c ≡ term_letter t };

    fn from(term: Term) -> char {
        match term {
            Term::Year => 'Y',
            Term::Quarter => 'Q',
            Term::Month => 'M',
            Term::Day => 'D',
            Term::Hours => 'H',
        }
    }
}

// The term that a letter writes.
impl TryFrom<char> for Term {
    type Error = UnknownLetter;

    ghost try_from_gives = { Reads term_letter term_of };

    fn try_from(c: char) -> Result<Term, UnknownLetter> {
        match c {
            'Y' => Ok(Term::Year),
            'Q' => Ok(Term::Quarter),
            'M' => Ok(Term::Month),
            'D' => Ok(Term::Day),
            'H' => Ok(Term::Hours),
            _ => Err(UnknownLetter(c)),
        }
    }
}

impl Term {
    // Whether the term takes that multiplier, in hundredths.
    pub(crate) fn takes(self, multiplier: u32) -> bool
        ensures { MatchBool result (InRange self multiplier) (OutOfRange self multiplier) }
    {
        let most = match self {
            Term::Year => MULTIPLIER_ONE,
            Term::Quarter | Term::Month => MOST_BY_MONTH,
            Term::Day | Term::Hours => MOST_BY_DAY,
        };
        (MULTIPLIER_ONE..=most).contains(&multiplier)
    }

    // The days of a year, or its hours for what runs within a day.
    pub(crate) fn year_in(self, year: Year) -> u64
        ensures value { result ≡ year_in year.days self }
        ensures some { 0 < result }
    {
        match self {
            Term::Hours => HOURS_PER_DAY as u64 * year.days(),
            _ => year.days(),
        }
    }
}

fn month_days(month: u32) -> u64
    requires { month ≤ last_month }
    ensures value { result ≡ month_days month }
    ensures bound { result ≤ 31 }
{
    MONTH_DAYS[month as usize]
}

fn quarter_days(quarter: u32) -> u64
    requires { quarter ≤ last_quarter }
    ensures value { result ≡ quarter_days quarter }
    ensures bound { result ≤ 93 }
{
    let first = MONTHS_PER_QUARTER * quarter as usize;
    MONTH_DAYS[first..first + MONTHS_PER_QUARTER].iter().sum()
}

impl Product {
    // Whether there is such a product.
    pub(crate) fn exists(self) -> bool
        ensures { MatchBool result (Exists self) (NoSuch self) }
    {
        match self.term {
            Term::Year | Term::Day => self.number == 0,
            Term::Quarter => self.number <= LAST_QUARTER,
            Term::Month => self.number <= LAST_MONTH,
            Term::Hours => (1..=HOURS_PER_DAY).contains(&self.number),
        }
    }

    // How long it runs in such a year: in days, or in hours within a day.
    pub(crate) fn runs(self, year: Year) -> u64
        requires { Exists self }
        ensures value { result ≡ runs_in year.days self.term self.number }
        ensures bound { result ≤ longest_year }
    {
        match self.term {
            Term::Year => year.days(),
            Term::Quarter => quarter_days(self.number),
            Term::Month => month_days(self.number),
            Term::Day => 1,
            Term::Hours => self.number as u64,
        }
    }
}
