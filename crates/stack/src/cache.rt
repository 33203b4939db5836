//! The interface of a cache.
ghost use Rattle.std.specs.Prelude.{◌≡◌, ℕ, ◌+◌, ◌^◌, ◌<◌, ◌≤◌, Bool, true, false, not, List, [], ◌∷◌, ◌++◌, map, length, None, Option, MatchOption, MatchResult};
ghost use Rattle.std.specs.List.{slice_get};
ghost use Rattle.records.specs.Faults.{Answers};
ghost use Rattle.records.specs.declared.column_type.ColumnType.{ColumnType};
ghost use Rattle.records.specs.declared.fault.Fault.{Fault};
ghost use Rattle.buckets.specs.declared.range.RangeAggregationRange.{RangeAggregationRange};
ghost use Rattle.segments.specs.Segments.{Seg};
ghost use Rattle.stack.specs.Levels.{Plan, kind_of};
ghost use Rattle.stack.specs.Overruns.{Deliveries, none_yet, added, all_added, Crowd, Complete};
ghost use Rattle.stack.specs.Calls.{Handled, HandledAnd, HandledForAll, Ready, Waits, Inside, Pushed};
ghost use Rattle.stack.specs.Writing.{above_steps, tally_worth, PutBelow};

use buckets::range::RangeAggregationRange;
use limits::agg_limits::AggregationLimits;
use metrics::tally::Tally;
use records::fault::Fault;
use records::kind::Kind;
use records::path::Path;
use records::row::Row;
use segments::segment::Segment;

/// A cache above a level, which it holds: at most 2,048 pairs of a bucket number below 512 and a document wait in it until
/// they are handed over to that level. All other calls go to the level.
///
/// It means, for each bucket, the documents that wait for it, in waiting order; the order between buckets is left open.
// It repeats the level's functions, since the level is reached through its cache alone: a `below_mut` would have to promise
// what the cache is once the borrow ends, whatever was done with the level in between.
// The segment, the limits and the slots are lent one by one, as to a level, and so are a request and its ranges.
pub trait SubAggCache {
    /// What is asked of the level below.
    type Request;

    type Fruit: Tally;

    ghost plan: { Self → Plan };

    ghost asked: { Self.Request → List RangeAggregationRange → (ℕ → Option ColumnType) → Plan };

    ghost refused: { Self.Request → List RangeAggregationRange → (ℕ → Option ColumnType) → ℕ → Option Fault };

    /// What the level below holds, without what waits.
    ghost stored: { Self → List Self.Fruit → Seg → ℕ → ℕ → Deliveries → Type 0 };

    /// The documents that wait for each bucket, in waiting order.
    ghost waiting: { Self → Deliveries };

    /// How many pairs wait.
    ghost pending: { Self → ℕ };

    /// Whether no pair more finds room.
    ghost full: { Self → Bool };

    /// Nothing waits in the levels below.
    ghost rests: { Self → Type 0 };

    ghost prepared: { Self → ℕ → ℕ → Type 0 };

    ghost made: { Self → ℕ };

    fn check<S: Segment>(
        request: &Self::Request,
        ranges: &[RangeAggregationRange],
        seg: &S,
        level: u32,
    ) -> Result<(), Fault>
        ensures { Answers result (refused request.now ranges.now (S.means seg.now).column_type level) };

    /// Empties the cache and all below it.
    fn reset<S: Segment>(
        &mut self,
        request: &Self::Request,
        ranges: &[RangeAggregationRange],
        seg: &S,
        slots: &mut [Self::Fruit],
        level: u32,
    )
        ensures plans { refused request.now ranges.now (S.means seg.now).column_type level ≡ None → plan self.new ≡ asked request.now ranges.now (S.means seg.now).column_type }
        ensures empties { (level + length (plan self.new).levels < 2 ^ 32 → (g : Seg) → (buckets : ℕ) → stored self.new slots.new g level buckets none_yet) × (made self.new ≡ 0) × (pending self.new ≡ 0) };

    /// Whether no pair more finds room. Some list of at most 2,048 pairs, for buckets below 512, is what waits.
    fn is_full(&self) -> bool
        ensures value { result ≡ full self.now }
        ensures list { Waits (waiting self.now) (pending self.now) };

    /// Lets a pair wait behind the others of its bucket; false, and unaltered, where it is full or the bucket is not below
    /// 512.
    // A bool: nothing stands beside the answer, and a caller that is refused hands over first, whatever the reason.
    fn push(&mut self, bucket: u32, doc: u32) -> bool
        ensures answer { (bucket < 512 → result ≡ not (full self.old)) × (512 ≤ bucket → result ≡ false) }
        ensures after { Pushed result (waiting self.old) (pending self.old) (waiting self.new) (pending self.new) bucket doc }
        ensures kept { ((slots : List Self.Fruit) (g : Seg) (n buckets : ℕ) (D : Deliveries) → stored self.old slots g n buckets D → stored self.new slots g n buckets D) × (plan self.new ≡ plan self.old) × (made self.new ≡ made self.old) };

    /// Delivers every pair that waits to the level below, each bucket's in waiting order, and leaves none waiting. A fault
    /// from below ends it and is returned as it came; it gives no other.
    fn hand_over<S: Segment>(
        &mut self,
        seg: &S,
        limits: &mut AggregationLimits,
        slots: &mut [Self::Fruit],
    ) -> Result<(), Fault>
        ensures { HandledAnd (pending self.new ≡ 0) result stored plan made (S.means seg.now)
            (self.old, slots.old, limits.old) (self.new, slots.new, limits.new)
            (Inside (waiting self.old)) (λ D. all_added D (waiting self.old)) };

    /// Hands over, and has the level below hand on all it has, all the way down.
    fn flush<S: Segment>(
        &mut self,
        seg: &S,
        limits: &mut AggregationLimits,
        slots: &mut [Self::Fruit],
    ) -> Result<(), Fault>
        ensures { HandledAnd ((pending self.new ≡ 0) × rests self.new) result stored plan made (S.means seg.now)
            (self.old, slots.old, limits.old) (self.new, slots.new, limits.new)
            (Inside (waiting self.old)) (λ D. all_added D (waiting self.old)) };

    fn prepare_max_bucket(
        &mut self,
        limits: &mut AggregationLimits,
        slots: &[Self::Fruit],
        buckets: u32,
    ) -> Result<(), Fault>
        ensures { HandledForAll ((waiting self.new ≡ waiting self.old) × (pending self.new ≡ pending self.old) × (rests self.old → rests self.new) × prepared self.new (length slots.now) buckets)
            result stored plan made
            (self.old, slots.now, limits.old) (self.new, slots.now, limits.new)
            (λ b. buckets ≤ b) (λ D. D) };

    fn num_rows(&self) -> Option<usize>
        ensures { MatchOption result (2 ^ 64 ≤ made self.now) (λ n. n ≡ made self.now) };

    fn tally_of(&self, slots: &[Self::Fruit], bucket: u32) -> Self::Fruit
        ensures { Ready stored rests prepared self.now slots.now bucket
            (λ g docs. Self.Fruit.worth result ≡ tally_worth Self.Fruit.nothing Self.Fruit.fed (plan self.now) g docs) };

    fn write_rows(
        &self,
        slots: &[Self::Fruit],
        above: Option<Path>,
        bucket: u32,
        out: &mut [Row<Self::Fruit>],
        at: usize,
    ) -> usize
        ensures { Ready stored rests prepared self.now slots.now bucket
            (λ g docs. length (above_steps above) + length (plan self.now).levels ≤ 3
            → PutBelow Self.Fruit.worth Self.Fruit.nothing Self.Fruit.fed (plan self.now) g (above_steps above) docs out.old out.new at result) };

    fn kind_at(&self, down: u32) -> Option<Kind>
        ensures { result ≡ slice_get (map kind_of (plan self.now).levels) down };

    ghost wider: { (c : Self) (slots : List Self.Fruit) (g : Seg) (n buckets more : ℕ) (D : Deliveries) → buckets ≤ more → stored c slots g n buckets D → stored c slots g n more D };

    ghost rows: { (c : Self) (slots : List Self.Fruit) (g : Seg) (n buckets : ℕ) (D : Deliveries) → stored c slots g n buckets D → Crowd (plan c).levels g buckets D (λ m. 1 ≤ m) (made c) };

    ghost complete: { (c : Self) (slots : List Self.Fruit) (g : Seg) (n buckets : ℕ) (D : Deliveries) → rests c → prepared c (length slots) buckets → stored c slots g n buckets D → Complete (plan c).levels (length slots) g buckets D (made c) };

    /// Some list of pairs has these parts.
    ghost waits: { (c : Self) → Waits (waiting c) (pending c) };

    /// An empty cache is never full.
    ghost roomy: { (c : Self) → pending c ≡ 0 → full c ≡ false };
}
