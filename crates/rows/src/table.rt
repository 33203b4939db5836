//! The interface of a level's table of rows.
ghost use Rattle.std.specs.Prelude.{◌≡◌, ℕ, ◌+◌, ◌-◌, ◌^◌, ◌<◌, ◌≤◌, List, None, Option, MatchOption, MatchResult};
ghost use Rattle.std.specs.List.{slice_get};
ghost use Rattle.records.specs.Faults.{Answers};
ghost use Rattle.records.specs.declared.column_type.ColumnType.{ColumnType};
ghost use Rattle.records.specs.declared.fault.Fault.{Fault};
ghost use Rattle.records.specs.declared.fault.Refusal.TheVariants.{CountOverflow};
ghost use Rattle.buckets.specs.declared.range.RangeAggregationRange.{RangeAggregationRange};
ghost use Rattle.stack.specs.Levels.{Lvl, kind_of, column_of, step_of};
ghost use Rattle.stack.specs.Overruns.{fault};
ghost use Rattle.stack.specs.Calls.{Charged};
ghost use Rattle.rows.specs.Tables.{Table, Sound, Listed, Grew, Prepared, Unprepared, RowFor, NoRowFor, Counted};

use buckets::range::RangeAggregationRange;
use limits::agg_limits::AggregationLimits;
use records::fault::Fault;
use records::kind::Kind;
use segments::segment::Segment;

/// What a level keeps: its rows, numbered from 0, each for a bucket of the level above and a step, with its count. A row's
/// number is the bucket's number in the level below. Each row made is charged as 1.
pub trait RowTable {
    /// What is asked of the level.
    type Request;

    ghost table: { Self → Table };

    /// The level that a request asks for, given the columns' types.
    ghost asked: { Self.Request → List RangeAggregationRange → (ℕ → Option ColumnType) → Lvl };

    /// Why a request is refused by the level with this number.
    ghost refused: { Self.Request → List RangeAggregationRange → (ℕ → Option ColumnType) → ℕ → Option Fault };

    /// The rows below each bucket, in the order of their steps.
    ghost listed: { Self → ℕ → List ℕ };

    /// Refuses a request, or accepts it.
    // One by one, as to a level: a request is plain, and its ranges lie in a slice that is lent beside it.
    fn check<S: Segment>(
        request: &Self::Request,
        ranges: &[RangeAggregationRange],
        seg: &S,
        level: u32,
    ) -> Result<(), Fault>
        ensures { Answers result (refused request.now ranges.now (S.means seg.now).column_type level) };

    /// Takes up a request that was accepted, with no rows.
    fn reset<S: Segment>(
        &mut self,
        request: &Self::Request,
        ranges: &[RangeAggregationRange],
        seg: &S,
        level: u32,
    )
        ensures plans { refused request.now ranges.now (S.means seg.now).column_type level ≡ None → (table self.new).level ≡ asked request.now ranges.now (S.means seg.now).column_type }
        ensures empties { ((table self.new).rows ≡ 0) × ((table self.new).number ≡ level) };

    /// The column that the level sorts.
    fn column(&self) -> u32
        ensures { result ≡ column_of (table self.now).level };

    fn kind(&self) -> Kind
        ensures { result ≡ kind_of (table self.now).level };

    /// The level's number.
    fn number(&self) -> u32
        ensures { result ≡ (table self.now).number };

    fn num_rows(&self) -> usize
        ensures { result ≡ (table self.now).rows };

    /// Makes the rows that always stand, for every bucket below `buckets`.
    fn prepare(&mut self, limits: &mut AggregationLimits, buckets: u32) -> Result<(), Fault>
        ensures { MatchResult result (λ _. Prepared (table self.old) (table self.new) limits.old limits.new buckets) (λ f. Unprepared (table self.old) (table self.new) limits.old limits.new buckets f) };

    /// The row of a value below a bucket, made if there is none; none where the value is not counted.
    fn row_for(
        &mut self,
        limits: &mut AggregationLimits,
        bucket: u32,
        val: u64,
    ) -> Result<Option<usize>, Fault>
        ensures { MatchResult result (λ o. MatchOption o ((step_of (table self.old).level val ≡ None) × (table self.new ≡ table self.old) × (limits.new ≡ limits.old)) (λ k. RowFor (table self.old) (table self.new) limits.old limits.new bucket val k)) (λ f. NoRowFor (table self.old) (table self.new) limits.old limits.new bucket val f) };

    /// Counts one reading more in a row; refused where its count is 2^64 − 1, and where there is no such row.
    fn count_up(&mut self, row: usize) -> Result<(), Fault>
        ensures { MatchResult result (λ _. (row < (table self.old).rows) × Counted (table self.old) (table self.new) row) (λ f. (row < (table self.old).rows → (f ≡ fault CountOverflow (table self.old).number) × ((table self.old).count row ≡ 2 ^ 64 - 1) × (table self.new ≡ table self.old))) };

    /// The row at an index below a bucket, by rising steps; none past the last.
    fn row_at(&self, bucket: u32, index: usize) -> Option<usize>
        ensures { result ≡ slice_get (listed self.now bucket) index };

    fn step_of(&self, row: usize) -> i64
        ensures { row < (table self.now).rows → result ≡ (table self.now).step row };

    fn count_of(&self, row: usize) -> u64
        ensures { row < (table self.now).rows → result ≡ (table self.now).count row };

    ghost sound: { (c : Self) → Sound (table c) };

    ghost lists: { (c : Self) (b : ℕ) → Listed (table c) b (listed c b) };
}
