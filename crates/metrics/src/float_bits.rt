//! A float kept as bits.
ghost use Rattle.std.specs.Prelude.{◌≡◌, ◌==◌};
ghost use Rattle.std.specs.Ordering.{on};
ghost use Rattle.std.specs.Cmp.Rules.{comparing};
ghost use Rattle.std.proofs.Common.{rules};
ghost use Rattle.metrics.specs.Floats.{float_of, bits_of, Keeps};

use std::fmt;
use std::num::{f64_from_bits_with_nan, f64_to_bits_with_nan};

/// A float kept as bits. Any NaN is written as one pattern, and read and compared as the same float.
#[derive(Clone, Copy)]
pub(crate) struct FloatBits {
    bits: u64,
}

// By hand, so that a tally's `{:?}` shows the bits alone.
impl fmt::Debug for FloatBits {
    fn fmt<W: fmt::Write>(&self, f: &mut fmt::Formatter<W>) -> fmt::Result {
        fmt::Debug::fmt(&self.bits, f)
    }
}

impl From<f64> for FloatBits {
    ghost from_gives = { λ x b. Keeps b x };

    fn from(x: f64) -> FloatBits {
        FloatBits {
            bits: f64_to_bits_with_nan(x),
        }
    }
}

impl From<FloatBits> for f64 {
    ghost from_gives = { λ b x. x ≡ float_of b };

    fn from(kept: FloatBits) -> f64 {
        f64_from_bits_with_nan(kept.bits)
    }
}

// By hand, since a derived `==` would tell patterns of a NaN apart.
impl PartialEq for FloatBits {
    ghost eq = { on (λ b. (bits_of (float_of b)).bits) ◌==◌ };

    ghost laws = { Prim.search (comparing, rules) };

    fn eq(&self, other: &FloatBits) -> bool {
        f64_to_bits_with_nan(f64::from(*self)) == f64_to_bits_with_nan(f64::from(*other))
    }
}
