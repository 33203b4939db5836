//! Where the pairs of a cache wait.
ghost use Rattle.std.specs.Prelude.{◌≡◌, ℕ, ◌<◌, ◌≤◌, false, not, ◌==◌};
ghost use Rattle.stack.specs.Overruns.{Deliveries, all_added};
ghost use Rattle.stack.specs.Calls.{Handled, Waits, Inside, Pushed};

use limits::agg_limits::AggregationLimits;
use records::fault::Fault;
use segments::segment::Segment;
use stack::level::SegmentAggregationCollector;

/// How many pairs a buffer has room for.
pub(crate) const CAPACITY: usize = 2048;

/// How many buckets there may be, as many as a level can have rows: the bucket of a pair is below it.
// Not `MOST_ROWS` of `rows`: the caches stand on no table.
pub(crate) const BUCKETS: usize = 512;

/// At most 2,048 pairs of a bucket number below 512 and a document, which wait for a level.
pub trait Buffer {
    /// The documents that wait for each bucket, in waiting order.
    ghost waiting: { Self → Deliveries };

    /// How many pairs wait.
    ghost pending: { Self → ℕ };

    /// A buffer in which nothing waits.
    fn new() -> Self
        ensures { pending result ≡ 0 };

    /// Whether no pair more finds room.
    fn is_full(&self) -> bool
        ensures { result ≡ (pending self.now == 2048) };

    /// Puts a pair behind the others of its bucket; false, and unaltered, where there is no room or the bucket is not below
    /// 512.
    // A bool, as the `insert` of a set: nothing comes with the answer, and the pair is the caller's still.
    fn push(&mut self, bucket: u32, doc: u32) -> bool
        ensures answer { (bucket < 512 → result ≡ not (pending self.old == 2048)) × (512 ≤ bucket → result ≡ false) }
        ensures after { Pushed result (waiting self.old) (pending self.old) (waiting self.new) (pending self.new) bucket doc };

    /// Leaves no pair.
    fn clear(&mut self)
        ensures { pending self.new ≡ 0 };

    /// Delivers every pair to a level, each bucket's in waiting order.
    fn deliver<L: SegmentAggregationCollector, S: Segment>(
        &self,
        below: &mut L,
        seg: &S,
        limits: &mut AggregationLimits,
        slots: &mut [L::Fruit],
    ) -> Result<(), Fault>
        ensures { Handled result L.SegmentAggregationCollector.holds L.SegmentAggregationCollector.plan L.SegmentAggregationCollector.made (S.Segment.means seg.now)
            (below.old, slots.old, limits.old) (below.new, slots.new, limits.new)
            (Inside (waiting self.now)) (λ D. all_added D (waiting self.now)) };

    /// Some list of pairs has these parts.
    ghost waits: { (b : Self) → Waits (waiting b) (pending b) };
}
