// The numbers that words write.
ghost use Rattle.std.specs.Prelude.{◌≡◌, ◌<◌, ◌≤◌, length, IfSome};
ghost use Rattle.lines.specs.Limits.{most_digits, ten_digits};
ghost use Rattle.lines.specs.Numbers.{read_on, number_of, with_minus, signed_of, Writes, WritesSigned, Reads};

use crate::bytes::{MINUS, ZERO};

// A number has at most so many digits, so that none is cut on its way to the check that judges it.
const MOST_DIGITS: usize = 9;

// The number that at most nine digits write.
fn digits(w: &[u8]) -> Option<u32>
    requires { length w.now ≤ most_digits }
    ensures value { result ≡ read_on 0 w.now }
    ensures bound { IfSome result (λ n. n < ten_digits) }
{
    let mut n: u32 = 0;
    for b in w {
        if !b.is_ascii_digit() {
            return None;
        }
        n = n * 10 + u32::from(*b - ZERO);
    }
    Some(n)
}

// The number that a word writes: 0, or one to nine digits with no 0 in front.
#[tactic(auto, using(crate::proofs::Decimals::reads_is))]
pub fn number(w: &[u8]) -> Option<u32>
    ensures value { result ≡ number_of w.now }
    ensures bound { IfSome result (λ n. n < ten_digits) }
    ensures law { Reads Writes w.now result }
{
    match w {
        [] | [ZERO, _, ..] => None,
        _ if w.len() > MOST_DIGITS => None,
        _ => digits(w),
    }
}

// The number below 0 that digits after a minus write.
fn negative(w: &[u8]) -> Option<i32>
    ensures { result ≡ with_minus (number_of w.now) }
{
    number(w).filter(|n| *n > 0).map(|n| -(n as i32))
}

// The number that a word writes, which may bear a minus; there is no -0.
#[tactic(auto, using(crate::proofs::Decimals::reads_signed_is))]
pub fn signed(w: &[u8]) -> Option<i32>
    ensures value { result ≡ signed_of w.now }
    ensures law { Reads WritesSigned w.now result }
{
    match w {
        [MINUS, rest @ ..] => negative(rest),
        _ => number(w).map(|n| n as i32),
    }
}
