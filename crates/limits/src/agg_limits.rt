//! The counter of charged rows, and the guard on it.
ghost use Rattle.std.specs.Prelude.{◌≡◌, ◌+◌, MatchResult};
ghost use Rattle.limits.specs.Limits.{over_allowance, used_of, restored, Opened, Same, Charged, Refused, Passes};

use records::fault::{Fault, Refusal};

/// How many rows may be charged, and how many are charged now. One counter serves any number of runs.
#[derive(Clone, Copy, Debug, PartialEq, Eq)]
pub struct AggregationLimits {
    pub limit: u64,
    pub used: u64,
}

impl AggregationLimits {
    /// Charges `n` rows that the level makes (0 where no level does).
    ///
    /// The charge is added first, and refused with `AllowanceExceeded` if the sum is above the limit; it then stays
    /// added. A sum past 2^64 − 1 is refused and not added.
    pub fn charge(&mut self, level: u32, n: u64) -> Result<(), Fault>
        ensures { MatchResult result (λ _. Charged self.old n self.new) (λ f. (f ≡ over_allowance level) × Refused self.old n self.new) }
    {
        let Self { limit, used } = *self;
        let over = Refusal::AllowanceExceeded.at(level);
        let sum = used.checked_add(n).ok_or(over)?;
        self.used = sum;
        if sum > limit {
            return Err(over);
        }
        Ok(())
    }
}

/// A guard on the counter: everything charged under it is taken back when it ends, on whichever way out.
///
/// A guard within a guard is opened on the counter behind it, `AggregationLimitsGuard::new(&mut *guard.limits)`.
pub struct AggregationLimitsGuard<'a> {
    pub limits: &'a mut AggregationLimits,
    /// What the counter held when the guard was opened.
    before: u64,
}

impl Drop for AggregationLimitsGuard<'_> {
    /// The counter holds again what it held before the guard.
    fn drop(self)
        ensures { self.exit.0.now ≡ restored self.entry }
    {
        let Self { limits, before } = self;
        limits.used = before;
    }
}

impl<'a> AggregationLimitsGuard<'a> {
    /// A guard on the counter, under which nothing is charged yet.
    pub fn new(limits: &'a mut AggregationLimits) -> AggregationLimitsGuard<'a>
        ensures { Opened limits.entry result }
    {
        let before = limits.used;
        AggregationLimitsGuard { limits, before }
    }

    /// Charges `n` rows to the counter, as `AggregationLimits::charge` does.
    pub fn charge(&mut self, level: u32, n: u64) -> Result<(), Fault>
        ensures same { Same self.old self.new }
        ensures answer { MatchResult result (λ _. Charged self.old.limits.now n self.new.limits.now) (λ f. (f ≡ over_allowance level) × Refused self.old.limits.now n self.new.limits.now) }
    {
        self.limits.charge(level, n)
    }
}

/// Whether two charges, one after the other, would pass; the counter is as before, whichever of them is refused.
pub fn try_charges(limits: &mut AggregationLimits, level: u32, n: u64, m: u64) -> Result<(), Fault>
    ensures taken_back { limits.new ≡ limits.old }
    ensures answer { Passes limits.old level (n + m) result }
{
    let mut guard = AggregationLimitsGuard::new(limits);
    guard.charge(level, n)?;
    guard.charge(level, m)
}

/// Whether two charges would pass, tried under a guard within the given one, which is as before afterwards.
pub fn try_charges_within(
    guard: &mut AggregationLimitsGuard,
    level: u32,
    n: u64,
    m: u64,
) -> Result<(), Fault>
    ensures taken_back { (Same guard.old guard.new) × (used_of guard.new ≡ used_of guard.old) }
    ensures answer { Passes guard.old.limits.now level (n + m) result }
{
    try_charges(&mut *guard.limits, level, n, m)
}

#[cfg(test)]
mod tests {
    use super::*;

    #[test]
    fn a_refused_charge_stays_added(rt: HostRuntime) {
        let mut limits = AggregationLimits { limit: 10, used: 4 };
        {
            let mut guard = AggregationLimitsGuard::new(&mut limits);
            assert!(rt; guard.charge(1, 6).is_ok());
            assert!(rt; guard.charge(1, 1).is_err());
            assert_eq!(rt; guard.limits.used, 11);
            assert!(rt; guard.charge(1, u64::MAX).is_err());
            assert_eq!(rt; guard.limits.used, 11);
        }
        assert_eq!(rt; limits.used, 4);
    }
}
