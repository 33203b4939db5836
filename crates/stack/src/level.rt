//! The interface of a level.
ghost use Rattle.std.specs.Prelude.{◌≡◌, ◌==◌, ℕ, ◌+◌, ◌^◌, ◌<◌, ◌≤◌, List, [], map, length, None, Option, MatchOption, MatchResult};
ghost use Rattle.std.specs.List.{slice_get, prefix_len};
ghost use Rattle.records.specs.Faults.{Answers};
ghost use Rattle.records.specs.declared.column_type.ColumnType.{ColumnType};
ghost use Rattle.records.specs.declared.fault.Fault.{Fault};
ghost use Rattle.buckets.specs.declared.range.RangeAggregationRange.{RangeAggregationRange};
ghost use Rattle.segments.specs.Segments.{Seg};
ghost use Rattle.stack.specs.Levels.{Plan, kind_of};
ghost use Rattle.stack.specs.Overruns.{Deliveries, none_yet, added, all_added, Crowd, Complete};
ghost use Rattle.stack.specs.Calls.{Handled, HandledAnd, HandledForAll, Ready, Inside, paired, Run};
ghost use Rattle.stack.specs.Writing.{above_steps, tally_worth, PutBelow};

use buckets::range::RangeAggregationRange;
use limits::agg_limits::AggregationLimits;
use metrics::tally::Tally;
use records::fault::Fault;
use records::kind::Kind;
use records::path::Path;
use records::row::Row;
use segments::segment::Segment;

/// A level of a stack, with all that lies below it: it sorts the documents delivered for each bucket of the level above
/// into rows of its own, and hands them on to the level below as that level's buckets.
///
/// Its state means the documents delivered for each bucket so far, in order, those that still wait in a cache included.
/// The slots are the tallies of the last level's rows; they are lent with each call and always the same.
// The segment, the limits and the slots are lent one by one: of a struct that holds the two `&mut`, each clause would have to
// say in addition that they stay the same borrows.
pub trait SegmentAggregationCollector {
    /// What is asked of this level and of those below it.
    type Request;

    type Fruit: Tally;

    /// The levels from here down, as they are now.
    ghost plan: { Self → Plan };

    /// The plan that a request asks for, given the columns' types.
    ghost asked: { Self.Request → List RangeAggregationRange → (ℕ → Option ColumnType) → Plan };

    /// Why a request is refused, by a level with this number or one below it.
    ghost refused: { Self.Request → List RangeAggregationRange → (ℕ → Option ColumnType) → ℕ → Option Fault };

    /// The level, numbered n and below so many buckets, is with these slots what the deliveries produce.
    ghost holds: { Self → List Self.Fruit → Seg → ℕ → ℕ → Deliveries → Type 0 };

    /// Nothing waits, here or below.
    ghost settled: { Self → Type 0 };

    /// Rows that always stand are made for every bucket below a number, here and below, with so many slots.
    ghost prepared: { Self → ℕ → ℕ → Type 0 };

    /// How many rows were made, here and below.
    ghost made: { Self → ℕ };

    /// Refuses a request, or accepts it; alters nothing.
    // One by one: a request is plain, and its ranges lie in a slice that is lent beside it.
    fn check<S: Segment>(
        request: &Self::Request,
        ranges: &[RangeAggregationRange],
        seg: &S,
        level: u32,
    ) -> Result<(), Fault>
        ensures { Answers result (refused request.now ranges.now (S.means seg.now).column_type level) };

    /// Empties the level and all below it, and takes up a request that was accepted.
    // One by one, as to `check`.
    fn reset<S: Segment>(
        &mut self,
        request: &Self::Request,
        ranges: &[RangeAggregationRange],
        seg: &S,
        slots: &mut [Self::Fruit],
        level: u32,
    )
        ensures plans { refused request.now ranges.now (S.means seg.now).column_type level ≡ None → plan self.new ≡ asked request.now ranges.now (S.means seg.now).column_type }
        ensures empties { (level + length (plan self.new).levels < 2 ^ 32 → (g : Seg) → (buckets : ℕ) → holds self.new slots.new g level buckets none_yet) × (made self.new ≡ 0) };

    /// Takes the documents for a bucket.
    fn collect<S: Segment>(
        &mut self,
        seg: &S,
        limits: &mut AggregationLimits,
        slots: &mut [Self::Fruit],
        bucket: u32,
        docs: &[u32],
    ) -> Result<(), Fault>
        ensures { Handled result holds plan made (S.means seg.now)
            (self.old, slots.old, limits.old) (self.new, slots.new, limits.new)
            (λ b. bucket < b) (λ D. added D bucket docs.now) };

    /// Takes documents for several buckets, each paired with its bucket's number: each run of equal numbers in one go.
    fn collect_multiple<S: Segment>(
        &mut self,
        seg: &S,
        limits: &mut AggregationLimits,
        slots: &mut [Self::Fruit],
        bucket_ids: &[u32],
        docs: &[u32],
    ) -> Result<(), Fault>
        ensures { Handled result holds plan made (S.means seg.now)
            (self.old, slots.old, limits.old) (self.new, slots.new, limits.new)
            (Inside (paired bucket_ids.now docs.now)) (λ D. all_added D (paired bucket_ids.now docs.now)) }
    {
        let pairs = bucket_ids.len().min(docs.len());
        // By index: a run's documents are lent where they stand, as the part of their slice beside the run, and std has no
        // `chunk_by` over two slices.
        let mut start = 0;
        while start < pairs {
            let end = run_end(bucket_ids, start, pairs);
            self.collect(seg, limits, slots, bucket_ids[start], &docs[start..end])?;
            start = end;
        }
        Ok(())
    }

    /// Hands everything on, top first, all the way down.
    fn flush<S: Segment>(
        &mut self,
        seg: &S,
        limits: &mut AggregationLimits,
        slots: &mut [Self::Fruit],
    ) -> Result<(), Fault>
        ensures { HandledAnd (settled self.new) result holds plan made (S.means seg.now)
            (self.old, slots.old, limits.old) (self.new, slots.new, limits.new)
            (λ b. Unit {0}) (λ D. D) };

    /// Makes the rows that always stand, for every bucket below `buckets`, here and below.
    fn prepare_max_bucket(
        &mut self,
        limits: &mut AggregationLimits,
        slots: &[Self::Fruit],
        buckets: u32,
    ) -> Result<(), Fault>
        ensures { HandledForAll ((settled self.old → settled self.new) × prepared self.new (length slots.now) buckets)
            result holds plan made
            (self.old, slots.now, limits.old) (self.new, slots.now, limits.new)
            (λ b. buckets ≤ b) (λ D. D) };

    /// How many rows were made, here and below; none where they are 2^64 or more.
    fn num_rows(&self) -> Option<usize>
        ensures { MatchOption result (2 ^ 64 ≤ made self.now) (λ n. n ≡ made self.now) };

    /// The tally of the bucket's row in the level above: what the bottom keeps for it, and the empty one above that.
    fn tally_of(&self, slots: &[Self::Fruit], bucket: u32) -> Self::Fruit
        ensures { Ready holds settled prepared self.now slots.now bucket
            (λ g docs. Self.Fruit.worth result ≡ tally_worth Self.Fruit.nothing Self.Fruit.fed (plan self.now) g docs) };

    /// Writes the rows below a bucket in path order from `at` on, if there is room for all of them, and says where they end.
    // A whole slice and an index: of a part of it, lent on mutably, clauses would have to say that the rest stays.
    fn write_rows(
        &self,
        slots: &[Self::Fruit],
        above: Option<Path>,
        bucket: u32,
        out: &mut [Row<Self::Fruit>],
        at: usize,
    ) -> usize
        ensures { Ready holds settled prepared self.now slots.now bucket
            (λ g docs. length (above_steps above) + length (plan self.now).levels ≤ 3
            → PutBelow Self.Fruit.worth Self.Fruit.nothing Self.Fruit.fed (plan self.now) g (above_steps above) docs out.old out.new at result) };

    /// The kind of the level so far down; none past the last.
    fn kind_at(&self, down: u32) -> Option<Kind>
        ensures { result ≡ slice_get (map kind_of (plan self.now).levels) down };

    /// What is held below some buckets is held below more.
    ghost wider: { (c : Self) (slots : List Self.Fruit) (g : Seg) (n buckets more : ℕ) (D : Deliveries) → buckets ≤ more → holds c slots g n buckets D → holds c slots g n more D };

    /// The rows made are that many distinct rows that exist.
    ghost rows: { (c : Self) (slots : List Self.Fruit) (g : Seg) (n buckets : ℕ) (D : Deliveries) → holds c slots g n buckets D → Crowd (plan c).levels g buckets D (λ m. 1 ≤ m) (made c) };

    /// Where nothing waits and rows are made for every bucket, no level has too many rows, and all that exist are made.
    ghost complete: { (c : Self) (slots : List Self.Fruit) (g : Seg) (n buckets : ℕ) (D : Deliveries) → settled c → prepared c (length slots) buckets → holds c slots g n buckets D → Complete (plan c).levels (length slots) g buckets D (made c) };
}

/// Where the run of equal bucket numbers that starts at `start` ends.
fn run_end(bucket_ids: &[u32], start: usize, pairs: usize) -> usize
    requires start_lt_pairs { start < pairs }
    requires pairs_in_bounds { pairs ≤ length bucket_ids.now }
    ensures { Run bucket_ids.now start pairs result }
{
    start + run_len(&bucket_ids[start..pairs], bucket_ids[start])
}

/// How many of the numbers come before the first that differs from this one.
fn run_len(bucket_ids: &[u32], bucket: u32) -> usize
    ensures { result ≡ prefix_len (λ b. b == bucket) bucket_ids.now }
{
    bucket_ids.iter().take_while(|b| **b == bucket).count()
}
