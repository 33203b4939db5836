//! Signed numbers and floats as u64 values, in an order that follows the numbers.
ghost use Rattle.std.specs.Prelude.{◌≡◌, ◌^◌, pos, ◌+ℤ◌, from_bits, to_bits};
ghost use Rattle.std.specs.Float.{binary64};
ghost use Rattle.numbers.specs.Columns.{less_shift, bits_of, value_of_bits};

use std::num::{f64_from_bits_with_nan, f64_to_bits_with_nan};

const HIGHEST_BIT: u64 = 0x8000_0000_0000_0000;

/// The signed number that a value stands for: 2^63 less.
pub(crate) fn u64_to_i64(val: u64) -> i64
    ensures { result ≡ less_shift (2 ^ 63) val }
{
    (val ^ HIGHEST_BIT).cast_signed()
}

/// The value that stands for a signed number: 2^63 more.
pub fn i64_to_u64(val: i64) -> u64
    ensures { pos result ≡ val +ℤ pos (2 ^ 63) }
{
    val.cast_unsigned() ^ HIGHEST_BIT
}

/// The float that a value stands for, NaN where its bits are no number's.
pub(crate) fn u64_to_f64(val: u64) -> f64
    ensures { result ≡ from_bits binary64 (bits_of val) }
{
    f64_from_bits_with_nan(if val >= HIGHEST_BIT {
        val ^ HIGHEST_BIT
    } else {
        !val
    })
}

/// The value that stands for a float; all NaNs have one.
pub(crate) fn f64_to_u64(val: f64) -> u64
    ensures { result ≡ value_of_bits (to_bits binary64 val) }
{
    let bits = f64_to_bits_with_nan(val);
    if bits < HIGHEST_BIT {
        bits ^ HIGHEST_BIT
    } else {
        !bits
    }
}
