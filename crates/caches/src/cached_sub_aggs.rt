//! A cache over any level, with its pairs in any buffer.
ghost use Rattle.std.specs.Prelude.{◌≡◌, ◌==◌};
ghost use Rattle.std.proofs.Common.{rules};

use crate::buffer::Buffer;
use buckets::range::RangeAggregationRange;
use limits::agg_limits::AggregationLimits;
use records::fault::Fault;
use records::kind::Kind;
use records::path::Path;
use records::row::Row;
use segments::segment::Segment;
use stack::cache::SubAggCache;
use stack::level::SegmentAggregationCollector;

/// A cache over a level: pairs wait in a buffer, and all other calls go to the level.
#[derive(Drop)]
pub struct CachedSubAggs<B, L> {
    buffer: B,
    below: L,
}

impl<B: Buffer, L: SegmentAggregationCollector> CachedSubAggs<B, L> {
    /// A cache above a level, in which nothing waits.
    pub fn new(below: L) -> CachedSubAggs<B, L>
        ensures { (result.below ≡ below) × (B.Buffer.pending result.buffer ≡ 0) }
    {
        CachedSubAggs {
            buffer: B::new(),
            below,
        }
    }
}

impl<B: Buffer, L: SegmentAggregationCollector> SubAggCache for CachedSubAggs<B, L> {
    type Request = L::Request;

    type Fruit = L::Fruit;

    ghost plan = { λ c. L.SegmentAggregationCollector.plan c.below };

    ghost asked = { L.SegmentAggregationCollector.asked };

    ghost refused = { L.SegmentAggregationCollector.refused };

    ghost stored = { λ c. L.SegmentAggregationCollector.holds c.below };

    ghost waiting = { λ c. B.Buffer.waiting c.buffer };

    ghost pending = { λ c. B.Buffer.pending c.buffer };

    ghost full = { λ c. (B.Buffer.pending c.buffer == 2048) };

    ghost rests = { λ c. L.SegmentAggregationCollector.settled c.below };

    ghost prepared = { λ c. L.SegmentAggregationCollector.prepared c.below };

    ghost made = { λ c. L.SegmentAggregationCollector.made c.below };

    ghost wider = { λ c slots seg n buckets more D h a. L.SegmentAggregationCollector.wider c.below slots seg n buckets more D h a };

    ghost rows = { Prim.search rules };

    ghost complete = { λ c slots seg n buckets D r p a. L.SegmentAggregationCollector.complete c.below slots seg n buckets D r p a };

    ghost waits = { λ c. B.Buffer.waits c.buffer };

    ghost roomy = { Prim.search rules };

    // One call each to the level, for the reason that stands at the trait.
    fn check<S: Segment>(
        request: &L::Request,
        ranges: &[RangeAggregationRange],
        seg: &S,
        level: u32,
    ) -> Result<(), Fault> {
        L::check(request, ranges, seg, level)
    }

    fn reset<S: Segment>(
        &mut self,
        request: &L::Request,
        ranges: &[RangeAggregationRange],
        seg: &S,
        slots: &mut [L::Fruit],
        level: u32,
    ) {
        self.buffer.clear();
        self.below.reset(request, ranges, seg, slots, level);
    }

    fn is_full(&self) -> bool {
        self.buffer.is_full()
    }

    fn push(&mut self, bucket: u32, doc: u32) -> bool {
        self.buffer.push(bucket, doc)
    }

    fn hand_over<S: Segment>(
        &mut self,
        seg: &S,
        limits: &mut AggregationLimits,
        slots: &mut [L::Fruit],
    ) -> Result<(), Fault> {
        self.buffer.deliver(&mut self.below, seg, limits, slots)?;
        self.buffer.clear();
        Ok(())
    }

    fn flush<S: Segment>(
        &mut self,
        seg: &S,
        limits: &mut AggregationLimits,
        slots: &mut [L::Fruit],
    ) -> Result<(), Fault> {
        self.hand_over(seg, limits, slots)?;
        self.below.flush(seg, limits, slots)
    }

    fn prepare_max_bucket(
        &mut self,
        limits: &mut AggregationLimits,
        slots: &[L::Fruit],
        buckets: u32,
    ) -> Result<(), Fault> {
        self.below.prepare_max_bucket(limits, slots, buckets)
    }

    fn num_rows(&self) -> Option<usize> {
        self.below.num_rows()
    }

    fn tally_of(&self, slots: &[L::Fruit], bucket: u32) -> L::Fruit {
        self.below.tally_of(slots, bucket)
    }

    fn write_rows(
        &self,
        slots: &[L::Fruit],
        above: Option<Path>,
        bucket: u32,
        out: &mut [Row<L::Fruit>],
        at: usize,
    ) -> usize {
        self.below.write_rows(slots, above, bucket, out, at)
    }

    fn kind_at(&self, down: u32) -> Option<Kind> {
        self.below.kind_at(down)
    }
}
