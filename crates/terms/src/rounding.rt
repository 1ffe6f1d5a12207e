// Division to the nearest whole. The rule for halves stands in `half_up` and nowhere else.
ghost use Rattle.std.specs.Prelude.{◌≡◌, ◌<◌, ◌≤◌, unsigned_abs};
ghost use Rattle.std.specs.Int.NonZero.{non_zero_u64_get};
ghost use Rattle.terms.specs.Rounding.{carry, nearest, Within, HalfUp, nearest_away};

use std::num::NonZeroU64;

// What the remainder of a division adds to the quotient.
fn half_up(quotient: u64, remainder: u64, divisor: u64) -> u64
    requires { remainder < divisor }
    ensures { result ≡ carry quotient remainder divisor }
{
    if remainder < divisor - remainder {
        0
    } else {
        1
    }
}

// n / by to the nearest whole.
pub fn to_nearest(n: u64, by: NonZeroU64) -> u64
    ensures value { result ≡ nearest n (non_zero_u64_get by) }
    ensures bound { result ≤ n }
    ensures within { Within n (non_zero_u64_get by) result }
    ensures half { HalfUp n (non_zero_u64_get by) result }
{
    let d = by.get();
    let q = n / d;
    q + half_up(q, n % d, d)
}

// z / by to the nearest whole, a half going away from 0.
pub fn to_nearest_signed(z: i64, by: NonZeroU64) -> i64
    ensures value { result ≡ nearest_away z (non_zero_u64_get by) }
    ensures bound { unsigned_abs result ≤ unsigned_abs z }
{
    let size = to_nearest(z.unsigned_abs(), by);
    if z < 0 {
        (-(size as i128)) as i64
    } else {
        size as i64
    }
}
