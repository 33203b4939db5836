//! Whole numbers from floats, brought into the range of their type.
ghost use Rattle.std.specs.Prelude.{◌≡◌, ℕ, ◌-◌, ◌^◌, ℤ, pos, neg_ℤ};
ghost use Rattle.numbers.specs.Whole as Whole;

use std::num::{nearest_i64_to_f64, saturating_f64_to_i64, saturating_f64_to_u64};

/// The greatest whole number not above x, as an i64: the nearest one where it is out of range, and 0 for a NaN.
pub fn floor_i64(x: f64) -> i64
    ensures value { result ≡ Whole.floor_i64 x }
    ensures order { Whole.Floor (neg_ℤ (pos (2 ^ 63))) (pos (2 ^ 63 - 1)) x result }
{
    // A floor of its own, by a rule of the project: the float's may be a call of the C library.
    let cut = saturating_f64_to_i64(x);
    if nearest_i64_to_f64(cut) > x {
        cut.saturating_sub(1)
    } else {
        cut
    }
}

/// A type of whole numbers: those from `-low` to `high`.
pub trait WholeNumber: Sized {
    ghost low: { ℕ };

    ghost high: { ℕ };

    ghost number: { Self → ℤ };

    /// x without its fraction: the nearest number where it is out of range, and 0 for a NaN.
    fn saturating_from(x: f64) -> Self
        ensures { number result ≡ Whole.cut low high x };
}

impl WholeNumber for i64 {
    ghost low = { 2 ^ 63 };

    ghost high = { 2 ^ 63 - 1 };

    ghost number = { λ n. n };

    fn saturating_from(x: f64) -> i64 {
        saturating_f64_to_i64(x)
    }
}

impl WholeNumber for u64 {
    ghost low = { 0 };

    ghost high = { 2 ^ 64 - 1 };

    ghost number = { λ n. pos n };

    fn saturating_from(x: f64) -> u64 {
        saturating_f64_to_u64(x)
    }
}

/// The least whole number not below x: the nearest one where it is out of range, and 0 for a NaN.
pub fn ceil<T: WholeNumber>(x: f64) -> T
    ensures value { T.number result ≡ Whole.ceil T.low T.high x }
    ensures order { Whole.Ceiling (neg_ℤ (pos T.low)) (pos T.high) x (T.number result) }
{
    T::saturating_from(x.ceil())
}

#[cfg(test)]
mod tests {
    use super::*;

    #[test]
    fn next_to_a_float(rt: HostRuntime) {
        assert_eq!(rt; floor_i64(-0.5), -1);
        assert_eq!(rt; floor_i64(-3.0), -3);
        assert_eq!(rt; floor_i64(1e300), i64::MAX);
        assert_eq!(rt; floor_i64(-1e300), i64::MIN);
        assert_eq!(rt; floor_i64(f64::NAN), 0);
        assert_eq!(rt; ceil::<i64>(-0.5), 0);
        assert_eq!(rt; ceil::<u64>(12.5), 13);
    }
}
