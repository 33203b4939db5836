//! The bottom of a stack: the tallies of the last level's rows.
ghost use Rattle.std.specs.Prelude.{◌≡◌, ◌<◌, ◌≤◌, length, MatchResult};
ghost use Rattle.records.specs.declared.column_type.ColumnType.TheVariants.{U64};
ghost use Rattle.records.specs.declared.fault.Refusal.TheVariants.{TooManyRows};
ghost use Rattle.metrics.specs.Tallies.{fed_all};
ghost use Rattle.segments.specs.Segments.{values};
ghost use Rattle.stack.specs.Levels.{values_of};
ghost use Rattle.stack.specs.Overruns.{numbered};
ghost use Rattle.bottom.specs.Bottoms.{bottom_plan, type_or_u64, unknown_column, SlotFed, Slots};
ghost use Rattle.stack.proofs.Bounds.{complete_bottom};
ghost use Rattle.std.proofs.Common.{rules};

use buckets::range::RangeAggregationRange;
use limits::agg_limits::AggregationLimits;
use metrics::tally::Tally;
use records::column_type::ColumnType;
use records::fault::{Fault, Refusal};
use records::kind::Kind;
use records::path::Path;
use records::row::Row;
use segments::segment::Segment;
use stack::level::SegmentAggregationCollector;
use std::marker::PhantomData;

/// What is asked of the bottom: the column that the tallies are fed from.
#[derive(Clone, Copy)]
pub struct MetricRequest {
    pub column: u32,
}

/// The bottom of a stack: one tally for each row of the last level, in the slots that are lent with each call.
///
/// The slots are the limit: a bucket past them is refused. Their rows are those of the level above and are not charged
/// again.
#[derive(Clone, Copy)]
pub struct SegmentMetricCollector<T> {
    number: u32,
    column: u32,
    field_type: ColumnType,
    tallies: PhantomData<T>,
}

impl<T> SegmentMetricCollector<T> {
    /// A bottom that no request was given to yet: it reads column 0 as U64, and has no number.
    pub fn new() -> SegmentMetricCollector<T>
        ensures { (result.number ≡ 0) × (bottom_plan result.column result.field_type ≡ bottom_plan 0 U64) }
    {
        SegmentMetricCollector {
            number: 0,
            column: 0,
            field_type: ColumnType::U64,
            tallies: PhantomData,
        }
    }

    /// Refuses more buckets than there are slots.
    fn check_slots(&self, slots: &[T], buckets: usize) -> Result<(), Fault>
        ensures { MatchResult result (λ _. buckets ≤ length slots.now) (λ f. (f ≡ record { refusal = TooManyRows; level = self.now.number; place = 0 }) × (length slots.now < buckets)) }
    {
        if buckets > slots.len() {
            return Err(Refusal::TooManyRows.at(self.number));
        }
        Ok(())
    }
}

impl<T: Tally> SegmentMetricCollector<T> {
    /// Feeds a tally the values of a document, first to last.
    fn feed_doc<S: Segment>(&self, slot: &mut T, seg: &S, doc: u32)
        ensures { T.worth slot.new ≡ fed_all T.fed self.now.field_type (values (S.means seg.now) self.now.column doc) (T.worth slot.old) }
    {
        // By index: a segment may hold its values in any form, so it lends no slice.
        for index in 0..seg.num_values(self.column, doc) {
            if let Some(val) = seg.value_at(self.column, doc, index) {
                slot.feed(self.field_type, val);
            }
        }
    }

    /// Feeds a tally the values of each document, first to last.
    fn feed_docs<S: Segment>(&self, slot: &mut T, seg: &S, docs: &[u32])
        ensures { T.worth slot.new ≡ fed_all T.fed self.now.field_type (values_of (S.means seg.now) self.now.column docs.now) (T.worth slot.old) }
    {
        // Copies, whose fields stay in registers beside what the loop writes.
        let (bottom, seg) = (*self, *seg);
        for doc in docs {
            bottom.feed_doc(slot, &seg, *doc);
        }
    }

    /// Feeds the tally in a slot the values of each document, first to last.
    fn feed_slot<S: Segment>(&self, slots: &mut [T], at: usize, seg: &S, docs: &[u32])
        requires { at < length slots.old }
        ensures { SlotFed T.worth T.fed self.now.field_type (values_of (S.means seg.now) self.now.column docs.now) slots.old slots.new at }
    {
        self.feed_docs(&mut slots[at], seg, docs);
    }
}

impl<T: Tally> SegmentAggregationCollector for SegmentMetricCollector<T> {
    type Request = MetricRequest;

    type Fruit = T;

    ghost plan = { λ c. bottom_plan c.column c.field_type };

    ghost asked = { λ request ranges types. bottom_plan request.column (type_or_u64 (types request.column)) };

    ghost refused = { λ request ranges types n. unknown_column (types request.column) n };

    ghost holds = { λ c slots g n buckets D. (c.number ≡ numbered n) × Slots T.Tally.worth T.Tally.nothing T.Tally.fed (bottom_plan c.column c.field_type) g slots D };

    ghost settled = { λ c. Unit {0} };

    ghost prepared = { λ c slots buckets. buckets ≤ slots };

    ghost made = { λ c. 0 };

    ghost wider = { Prim.search rules };

    ghost rows = { Prim.search rules };

    ghost complete = { λ c slots seg n buckets D s p h. complete_bottom (length slots) seg buckets D p };

    fn check<S: Segment>(
        request: &MetricRequest,
        _ranges: &[RangeAggregationRange],
        seg: &S,
        level: u32,
    ) -> Result<(), Fault> {
        // Said at each level in std's words: a name for the expression would be as long.
        seg.column_type(request.column)
            .map(|_| ())
            .ok_or(Refusal::UnknownColumn.at(level))
    }

    fn reset<S: Segment>(
        &mut self,
        request: &MetricRequest,
        _ranges: &[RangeAggregationRange],
        seg: &S,
        slots: &mut [T],
        level: u32,
    ) {
        self.number = level;
        self.column = request.column;
        // U64 where the column is unknown, which `check` refuses: in std's words, as there.
        self.field_type = seg.column_type(request.column).unwrap_or(ColumnType::U64);
        // Not `fill`, which asks that a clone cannot fail.
        for slot in slots.iter_mut() {
            *slot = T::empty();
        }
    }

    fn collect<S: Segment>(
        &mut self,
        seg: &S,
        _limits: &mut AggregationLimits,
        slots: &mut [T],
        bucket: u32,
        docs: &[u32],
    ) -> Result<(), Fault> {
        self.check_slots(slots, bucket as usize + 1)?;
        self.feed_slot(slots, bucket as usize, seg, docs);
        Ok(())
    }

    fn flush<S: Segment>(
        &mut self,
        _seg: &S,
        _limits: &mut AggregationLimits,
        _slots: &mut [T],
    ) -> Result<(), Fault> {
        // Nothing waits at the bottom.
        Ok(())
    }

    fn prepare_max_bucket(
        &mut self,
        _limits: &mut AggregationLimits,
        slots: &[T],
        buckets: u32,
    ) -> Result<(), Fault> {
        self.check_slots(slots, buckets as usize)
    }

    fn num_rows(&self) -> Option<usize> {
        Some(0)
    }

    fn tally_of(&self, slots: &[T], bucket: u32) -> T {
        slots.get(bucket as usize).copied().unwrap_or(T::empty())
    }

    fn write_rows(
        &self,
        _slots: &[T],
        _above: Option<Path>,
        _bucket: u32,
        _out: &mut [Row<T>],
        at: usize,
    ) -> usize {
        at
    }

    fn kind_at(&self, _down: u32) -> Option<Kind> {
        None
    }
}

#[cfg(test)]
mod tests {
    use super::*;
    use metrics::extremes::Extremes;
    use metrics::number::Number;
    use segments::dense::DenseSegment;
    use segments::offset::OffsetSegment;

    #[test]
    fn a_repeated_document_is_fed_again(rt: HostRuntime) {
        let types = [ColumnType::U64];
        let offsets = [0, 1, 1, 3];
        let values = [3, 5, 1];
        let seg = OffsetSegment {
            num_docs: 3,
            column_types: &types,
            offsets: &offsets,
            values: &values,
        };
        let mut limits = AggregationLimits { limit: 0, used: 0 };
        let mut slots = [Number::empty(), Number::empty()];
        let mut bottom = SegmentMetricCollector::<Number>::new();
        bottom.reset(&MetricRequest { column: 0 }, &[], &seg, &mut slots, 2);
        assert!(rt;
            bottom
                .collect(&seg, &mut limits, &mut slots, 0, &[2, 1, 2])
                .is_ok()
        );
        assert!(rt;
            bottom
                .collect(&seg, &mut limits, &mut slots, 1, &[0])
                .is_ok()
        );
        assert_eq!(rt; bottom.tally_of(&slots, 0).count(), 4);
        assert_eq!(rt; bottom.tally_of(&slots, 1).count(), 1);
    }

    #[test]
    fn a_bucket_past_the_slots_is_refused(rt: HostRuntime) {
        let types = [ColumnType::U64];
        let values = [7, 4];
        let seg = DenseSegment {
            num_docs: 2,
            column_types: &types,
            values: &values,
        };
        let mut limits = AggregationLimits { limit: 0, used: 0 };
        let mut slots = [Extremes::empty()];
        let mut bottom = SegmentMetricCollector::<Extremes>::new();
        bottom.reset(&MetricRequest { column: 0 }, &[], &seg, &mut slots, 3);
        let past = Refusal::TooManyRows.at(3);
        assert!(rt;
            bottom
                .collect(&seg, &mut limits, &mut slots, 0, &[1, 0, 1])
                .is_ok()
        );
        assert_eq!(rt;
            bottom.collect(&seg, &mut limits, &mut slots, 1, &[0]).err(),
            Some(past)
        );
        assert!(rt; bottom.prepare_max_bucket(&mut limits, &slots, 1).is_ok());
        assert_eq!(rt;
            bottom.prepare_max_bucket(&mut limits, &slots, 2).err(),
            Some(past)
        );
        assert_eq!(rt; bottom.tally_of(&slots, 0).least(), Some(4));
        assert_eq!(rt; bottom.tally_of(&slots, 0).greatest(), Some(7));
        assert_eq!(rt; limits.used, 0);
    }
}
