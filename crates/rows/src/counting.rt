//! Making rows, each charged, and counting readings in them.
ghost use Rattle.std.specs.Prelude.{◌≡◌, ◌+◌, ◌-◌, ◌^◌, ◌<◌, ◌≤◌, MatchResult, slice_index};
ghost use Rattle.records.specs.declared.fault.Refusal.TheVariants.{CountOverflow};
ghost use Rattle.limits.specs.Limits.{Charged};
ghost use Rattle.stack.specs.Overruns.{fault};
ghost use Rattle.rows.specs.Counting.{OneMore, NoMore, OneUp};

use crate::counts::{Counts, MOST_ROWS};
use limits::agg_limits::AggregationLimits;
use records::fault::{Fault, Refusal};

impl Counts {
    /// No rows, for the level with this number.
    pub fn new(level: u32) -> Counts
        ensures { (result.rows ≡ 0) × (result.level ≡ level) }
    {
        Counts {
            counts: [0; MOST_ROWS],
            rows: 0,
            level,
        }
    }

    /// Takes up the level with this number, with no rows.
    pub fn reset(&mut self, level: u32)
        ensures { (self.new.rows ≡ 0) × (self.new.level ≡ level) }
    {
        self.rows = 0;
        self.level = level;
    }

    pub fn num_rows(&self) -> usize
        ensures { result ≡ self.now.rows }
    {
        self.rows // the counts past it are not in use
    }

    /// Makes the next row, with count 0, and charges it; answers its number.
    pub fn make_row(&mut self, limits: &mut AggregationLimits) -> Result<usize, Fault>
        ensures { MatchResult result (λ row. (row ≡ self.old.rows) × OneMore self.old self.new × Charged limits.old 1 limits.new) (λ f. (self.new ≡ self.old) × NoMore self.old limits.old limits.new f) }
    {
        let row = self.rows;
        if row == MOST_ROWS {
            return Err(Refusal::TooManyRows.at(self.level));
        }
        // Read so that it is known to be a u64, which a call alone does not say: at 2^64 − 1 the refused charge is not added.
        let _used = limits.used;
        limits.charge(self.level, 1)?;
        self.counts[row] = 0;
        self.rows += 1;
        Ok(row)
    }

    /// Counts one reading more in a row; refused where its count is 2^64 − 1, and where there is no such row.
    pub fn count_up(&mut self, row: usize) -> Result<(), Fault>
        ensures { MatchResult result (λ _. (row < self.old.rows) × OneUp self.old self.new row) (λ f. (f ≡ fault CountOverflow self.old.level) × (self.new ≡ self.old) × (row < self.old.rows → slice_index self.old.counts row ≡ 2 ^ 64 - 1)) }
    {
        let full = Refusal::CountOverflow.at(self.level);
        if row >= self.rows {
            return Err(full);
        }
        self.counts[row] = self.counts[row].checked_add(1).ok_or(full)?;
        Ok(())
    }

    /// The count of a row; 0 where there is no such row.
    pub fn count_of(&self, row: usize) -> u64
        ensures inside { row < self.now.rows → result ≡ slice_index self.now.counts row }
        ensures past { self.now.rows ≤ row → result ≡ 0 }
    {
        if row < self.rows { self.counts[row] } else { 0 }
    }
}
