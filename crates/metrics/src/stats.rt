//! Count, compensated sum, least and greatest of the values as numbers.
ghost use Rattle.std.specs.Prelude.{◌≡◌, Bool, cond, ◌||◌, is_nan};
ghost use Rattle.std.specs.Float.{binary64};
ghost use Rattle.std.specs.Float.Ieee.{add, sub};
ghost use Rattle.metrics.specs.Sums.{Sums, no_sums, excess, advanced, collected, merged, stats_worth, stored, mean, finalized};
ghost use Rattle.numbers.specs.Columns.{number_of};
ghost use Rattle.metrics.specs.Carry.{Carried, Carries};
ghost use Rattle.metrics.specs.Sameness.{same_stats};
ghost use Rattle.metrics.specs.StatsLaws.{Worked, StatsLaws};

use crate::float_bits::FloatBits;
use crate::joinable::Joinable;
use crate::tally::Tally;
use numbers::fast_field::f64_from_fastfield_u64;
use records::column_type::ColumnType;
use std::num::nearest_u64_to_f64;

/// The statistics of the values, for printing.
#[derive(Clone, Copy, Debug)]
pub struct Stats {
    /// The number of values.
    pub count: u64,
    /// The sum of the values.
    pub sum: f64,
    /// The least value. `None` if count equals zero.
    pub min: Option<f64>,
    /// The greatest value. `None` if count equals zero.
    pub max: Option<f64>,
    /// The average of the values. `None` if count equals zero.
    pub avg: Option<f64>,
}

/// Intermediate result of the stats that can be merged with other intermediate results. It minds the order of the
/// values, so it is joinable and no more.
///
/// Floats are kept as bits, any NaN as one pattern.
#[derive(Clone, Copy, Debug, PartialEq)]
pub struct IntermediateStats {
    /// The number of values, at most 2^64 − 1.
    count: u64,
    /// The sum of the values.
    sum: FloatBits,
    /// What the last addition added to the sum beyond what was to be added
    /// ([Kahan summation](https://en.wikipedia.org/wiki/Kahan_summation_algorithm)).
    delta: FloatBits,
    /// The least value.
    min: FloatBits,
    /// The greatest value.
    max: FloatBits,
}

impl IntermediateStats {
    /// The number of values collected.
    pub fn count(&self) -> u64
        ensures { result ≡ (stats_worth self.now).count }
    {
        self.count
    }

    /// The sum of all values collected.
    pub fn sum(&self) -> f64
        ensures { result ≡ (stats_worth self.now).sum }
    {
        f64::from(self.sum)
    }

    /// The average of the values. `None` if there is none.
    pub fn avg(&self) -> Option<f64>
        ensures { result ≡ mean (stats_worth self.now) }
    {
        (self.count > 0).then(|| self.sum() / nearest_u64_to_f64(self.count))
    }

    /// Computes the final stats value.
    pub fn finalize(&self) -> Stats
        ensures { result ≡ finalized (stats_worth self.now) }
    {
        let any = self.count > 0;
        Stats {
            count: self.count,
            sum: self.sum(),
            min: any.then_some(f64::from(self.min)),
            max: any.then_some(f64::from(self.max)),
            avg: self.avg(),
        }
    }

    /// Collects a value.
    pub fn collect(&mut self, value: f64)
        ensures kept { self.new ≡ stored (collected (stats_worth self.old) value) }
        ensures read { stats_worth self.new ≡ collected (stats_worth self.old) value }
        ensures carried { Carried (stats_worth self.old) (sub binary64 value (stats_worth self.old).delta) (stats_worth self.new) }
    {
        let y = value - f64::from(self.delta);
        self.advance(1, y, value, value);
    }

    /// Goes on by `count` values with `y` to be added, and their least and greatest value.
    fn advance(&mut self, count: u64, y: f64, min: f64, max: f64)
        ensures kept { self.new ≡ stored (advanced (stats_worth self.old) count y min max) }
        ensures read { stats_worth self.new ≡ advanced (stats_worth self.old) count y min max }
        ensures carried { Carried (stats_worth self.old) y (stats_worth self.new) }
    {
        let (sum, delta) = kahan(self.sum(), y);
        self.count = self.count.saturating_add(count);
        self.sum = FloatBits::from(sum);
        self.delta = FloatBits::from(delta);
        self.min = FloatBits::from(first_if(f64::from(self.min), min, |a, b| a <= b));
        self.max = FloatBits::from(first_if(f64::from(self.max), max, |a, b| a >= b));
    }
}

/// One step of Kahan's algorithm: the sum with `y` added, and its compensation, which is 0 where the sum is not finite.
fn kahan(sum: f64, y: f64) -> (f64, f64)
    ensures { result ≡ (add binary64 sum y, excess sum y) }
{
    let t = sum + y;
    if t.is_finite() {
        (t, (t - sum) - y)
    } else {
        (t, 0.0)
    }
}

/// The first float if it `stays` beside the second, or if the second is a NaN; else the second.
// std's `min` and `max` leave open which of two floats that compare equal they answer, as of -0 and +0.
fn first_if<F: Fn(f64, f64) -> bool>(a: f64, b: f64, stays: F) -> f64
    requires { F.IsAlwaysCallable stays }
    ensures { (s : Bool) × F.post stays a b s × (result ≡ cond (s || is_nan b) a b) }
{
    if stays(a, b) || b.is_nan() { a } else { b }
}

impl Tally for IntermediateStats {
    ghost Worth = { Sums };

    ghost worth = { stats_worth };

    ghost nothing = { no_sums };

    ghost fed = { λ t v s. collected s (number_of t v) };

    /// The stats of no value: the least is +∞, the greatest −∞.
    #[tactic(auto, using(crate::proofs::Starting::starts))]
    fn empty() -> IntermediateStats {
        IntermediateStats {
            count: 0,
            sum: FloatBits::from(0.0),
            delta: FloatBits::from(0.0),
            min: FloatBits::from(f64::INFINITY),
            max: FloatBits::from(f64::NEG_INFINITY),
        }
    }

    /// Collects the number that the value stands for.
    fn feed(&mut self, field_type: ColumnType, val: u64) {
        self.collect(f64_from_fastfield_u64(val, field_type));
    }

    ghost same = { same_stats };
}

impl Joinable for IntermediateStats {
    ghost Worth = { Self.Tally.Worth };

    ghost worth = { Self.Tally.worth };

    ghost joined = { merged };

    fn merge_fruits(&mut self, other: &IntermediateStats) {
        let y = other.sum() - (f64::from(self.delta) + f64::from(other.delta));
        self.advance(other.count, y, f64::from(other.min), f64::from(other.max));
    }

    fn joinable_stands() {}
}

/// The worked cases: 2^53, 1 and 1 sum to 2^53 + 2, and after +∞ and 1 the sum is +∞ and the least 1.
pub fn stats_stand()
    ensures { Worked }
{}

/// A NaN changes neither the least nor the greatest, of −0.0 and +0.0 the earlier stays, and a sum that is not finite has
/// compensation 0.
pub fn stats_laws_stand()
    ensures { StatsLaws }
{}

/// What an addition rounds off is carried in the compensation, in a merging too.
pub fn compensation_stands()
    ensures { Carries }
{}

#[cfg(test)]
mod tests {
    use super::*;
    use crate::exact::feed_apart;
    use crate::extremes::Extremes;

    #[test]
    fn compensates(rt: HostRuntime) {
        let mut stats = IntermediateStats::empty();
        stats.feed(ColumnType::U64, 1 << 53);
        stats.feed(ColumnType::Bool, 1);
        let mut other = IntermediateStats::empty();
        other.feed(ColumnType::I64, (1 << 63) + 1);
        stats.merge_fruits(&other);
        let end = stats.finalize();
        assert!(rt; end.sum == 9_007_199_254_740_994.0);
        assert_eq!(rt; end.min, Some(1.0));
        assert_eq!(rt; stats.count(), 3);
    }

    #[test]
    fn same_nan(rt: HostRuntime) {
        let mut stats = IntermediateStats::empty();
        stats.collect(f64::NAN);
        assert!(rt; stats == stats);
        assert!(rt; stats != IntermediateStats::empty());
    }

    #[test]
    fn fed_apart(rt: HostRuntime) {
        let tally: Extremes = feed_apart(ColumnType::U64, &[7, 3], &[9]);
        assert_eq!(rt; tally.least(), Some(3));
        assert_eq!(rt; tally.greatest(), Some(9));
    }
}
