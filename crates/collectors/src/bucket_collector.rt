//! A level with rows.
ghost use Rattle.std.specs.Prelude.{◌≡◌, ℕ, suc, ◌+◌, ◌<◌, ◌≤◌, List, [], ◌∷◌, ◌++◌, length, set, MatchOption, MatchResult};
ghost use Rattle.std.specs.List.{slice_get};
ghost use Rattle.std.specs.Option.{option_or};
ghost use Rattle.records.specs.Paths.{steps_of};
ghost use Rattle.records.specs.Rows.{Entry};
ghost use Rattle.segments.specs.Segments.{Seg};
ghost use Rattle.stack.specs.Levels.{steps, step_of};
ghost use Rattle.stack.specs.Overruns.{Deliveries, numbered};
ghost use Rattle.stack.specs.Calls.{Ready};
ghost use Rattle.stack.specs.Writing.{above_steps};
ghost use Rattle.collectors.specs.Filing.{on_top, Standing, placed_at, placed_all};
ghost use Rattle.collectors.specs.Calls.{plan_in, made_in, held_in, PutIn, PutRow, Files};
ghost use Rattle.collectors.specs.Holding.{held_rows, held_complete};
ghost use Rattle.collectors.specs.Carrying.{waits_none};
ghost use Rattle.std.proofs.Common.{rules};

use crate::deliver::{deliver, ease};
use buckets::range::RangeAggregationRange;
use limits::agg_limits::AggregationLimits;
use metrics::tally::Tally;
use records::fault::Fault;
use records::kind::Kind;
use records::path::Path;
use records::row::Row;
use rows::table::RowTable;
use segments::segment::Segment;
use stack::cache::SubAggCache;
use stack::level::SegmentAggregationCollector;

/// A level with rows: a table of rows, and the cache through which their documents go to the level below.
#[derive(Drop)]
pub struct SegmentBucketCollector<K, C> {
    pub inner: K,
    pub below: C,
}

/// What is asked of a level, and of those below it.
#[derive(Clone, Copy)]
pub struct LevelRequest<R, B> {
    pub level: R,
    pub below: B,
}

// The segment, the limits and the slots stay three parameters, as the interface lends them.
impl<K: RowTable, C: SubAggCache> SegmentBucketCollector<K, C> {
    /// Counts a document in a row, and sends it on.
    fn put<S: Segment>(
        &mut self,
        seg: &S,
        limits: &mut AggregationLimits,
        slots: &mut [C::Fruit],
        row: usize,
        doc: u32,
    ) -> Result<(), Fault>
        requires { row < (K.table self.old.inner).rows }
        ensures { PutIn result K.table C.stored C.waiting C.plan C.made (S.means seg.now)
            (self.old, slots.old, limits.old) (self.new, slots.new, limits.new)
            row doc }
    {
        self.inner.count_up(row)?;
        deliver(&mut self.below, seg, limits, slots, row as u32, doc)
    }

    /// Puts a document into the row of one of its values, if the value is counted.
    fn place<S: Segment>(
        &mut self,
        seg: &S,
        limits: &mut AggregationLimits,
        slots: &mut [C::Fruit],
        bucket: u32,
        val: u64,
        doc: u32,
    ) -> Result<(), Fault>
        ensures { Files result K.table C.stored C.waiting C.plan C.made (S.means seg.now)
            (self.old, slots.old, limits.old) (self.new, slots.new, limits.new)
            bucket (λ l F. placed_at F bucket (step_of l val) doc) }
    {
        match self.inner.row_for(limits, bucket, val)? {
            Some(row) => self.put(seg, limits, slots, row, doc),
            None => Ok(()),
        }
    }

    /// Puts a document into the row of each of its counted values.
    fn spread<S: Segment>(
        &mut self,
        seg: &S,
        limits: &mut AggregationLimits,
        slots: &mut [C::Fruit],
        bucket: u32,
        doc: u32,
    ) -> Result<(), Fault>
        ensures { Files result K.table C.stored C.waiting C.plan C.made (S.means seg.now)
            (self.old, slots.old, limits.old) (self.new, slots.new, limits.new)
            bucket (λ l F. placed_all F bucket doc (steps l (S.means seg.now) doc)) }
    {
        let column = self.inner.column();
        // By index: a segment may hold its values in any form and lends no slice of them, and a `for` over a chain with a
        // closure does not prove in a generic function.
        for i in 0..seg.num_values(column, doc) {
            if let Some(val) = seg.value_at(column, doc, i) {
                self.place(seg, limits, slots, bucket, val, doc)?;
            }
        }
        Ok(())
    }

    /// Writes a row, and the rows below it.
    fn write_row(
        &self,
        slots: &[C::Fruit],
        above: Option<Path>,
        row: usize,
        out: &mut [Row<C::Fruit>],
        at: usize,
    ) -> usize
        requires { row < (K.table self.now.inner).rows }
        ensures { let t = K.table self.now.inner in
            let plan = C.plan self.now.below in
            let path = above_steps above ++ (t.step row ∷ []) in
            Ready C.stored C.rests C.prepared self.now.below slots.now row (λ g docs. length path + length plan.levels ≤ 3
            → PutRow C.Fruit.Tally.worth C.Fruit.Tally.nothing C.Fruit.Tally.fed plan g path (t.count row) docs out.old out.new at result) }
    {
        let Some(path) = path_below(above, self.inner.step_of(row)) else {
            return at;
        };
        let bucket = row as u32;
        let count = self.inner.count_of(row);
        let tally = self.below.tally_of(slots, bucket);
        let next = put_row(out, at, Row { path, count, tally });
        self.below.write_rows(slots, Some(path), bucket, out, next)
    }
}

/// The path of a row's step below a path, or at the top; none where the path has no room.
fn path_below(above: Option<Path>, step: i64) -> Option<Path>
    ensures { MatchOption result (3 ≤ length (above_steps above)) (λ p. steps_of p ≡ above_steps above ++ (step ∷ [])) }
{
    above.map_or(Some(Path::first(step)), |path| path.extended(step))
}

/// Writes a row where there is room, and says where the next one goes.
fn put_row<T: Tally>(out: &mut [Row<T>], at: usize, row: Row<T>) -> usize
    ensures { at < length out.old → (out.new ≡ set out.old at row) × (result ≡ at + 1) }
{
    // Not by `get_mut`, after which a proof knows nothing of the slice's elements.
    if at >= out.len() {
        return at;
    }
    out[at] = row;
    at + 1
}

impl<K: RowTable, C: SubAggCache> SegmentAggregationCollector for SegmentBucketCollector<K, C> {
    type Request = LevelRequest<K::Request, C::Request>;

    type Fruit = C::Fruit;

    ghost plan = { plan_in K.table C.plan };

    ghost asked = { λ q ranges types. on_top (K.asked q.level ranges types) (C.asked q.below ranges types) };

    ghost refused = { λ q ranges types n. option_or (K.refused q.level ranges types n) (C.refused q.below ranges types (numbered (n + 1))) };

    ghost holds = { held_in K.table C.stored C.waiting };

    ghost settled = { λ c. (C.pending c.below ≡ 0) × C.rests c.below };

    ghost prepared = { λ c slots buckets. Standing (K.table c.inner) buckets × C.prepared c.below slots (K.table c.inner).rows };

    ghost made = { made_in K.table C.made };

    ghost wider = { Prim.search rules };

    ghost rows = { λ c slots seg n nb D x.
        held_rows (K.table c.inner) (K.sound c.inner) (C.plan c.below).levels seg n nb (C.stored c.below slots seg) (C.waiting c.below) D (C.made c.below) (λ m R E h. C.rows c.below slots seg m R E h) x };

    ghost complete = { λ c slots seg n nb D s p x.
        let t = K.table c.inner in
        held_complete t (K.sound c.inner) (C.plan c.below).levels (length slots) seg n nb (C.stored c.below slots seg) (C.waiting c.below) D (C.made c.below)
        (waits_none (C.waits c.below) s.0) p.0
        (λ E h. C.complete c.below slots seg (suc n) t.rows E s.1 p.1 h) x };

    fn check<S: Segment>(
        request: &LevelRequest<K::Request, C::Request>,
        ranges: &[RangeAggregationRange],
        seg: &S,
        level: u32,
    ) -> Result<(), Fault> {
        K::check(&request.level, ranges, seg, level)?;
        C::check(&request.below, ranges, seg, level.saturating_add(1))
    }

    fn reset<S: Segment>(
        &mut self,
        request: &LevelRequest<K::Request, C::Request>,
        ranges: &[RangeAggregationRange],
        seg: &S,
        slots: &mut [C::Fruit],
        level: u32,
    ) {
        self.inner.reset(&request.level, ranges, seg, level);
        self.below.reset(&request.below, ranges, seg, slots, level.saturating_add(1));
    }

    fn collect<S: Segment>(
        &mut self,
        seg: &S,
        limits: &mut AggregationLimits,
        slots: &mut [C::Fruit],
        bucket: u32,
        docs: &[u32],
    ) -> Result<(), Fault> {
        for &doc in docs {
            self.spread(seg, limits, slots, bucket, doc)?;
        }
        ease(&mut self.below, seg, limits, slots)
    }

    fn flush<S: Segment>(
        &mut self,
        seg: &S,
        limits: &mut AggregationLimits,
        slots: &mut [C::Fruit],
    ) -> Result<(), Fault> {
        self.below.flush(seg, limits, slots)
    }

    fn prepare_max_bucket(
        &mut self,
        limits: &mut AggregationLimits,
        slots: &[C::Fruit],
        buckets: u32,
    ) -> Result<(), Fault> {
        self.inner.prepare(limits, buckets)?;
        let rows = self.inner.num_rows() as u32;
        self.below.prepare_max_bucket(limits, slots, rows)
    }

    fn num_rows(&self) -> Option<usize> {
        self.inner.num_rows().checked_add(self.below.num_rows()?)
    }

    fn tally_of(&self, _slots: &[C::Fruit], _bucket: u32) -> C::Fruit {
        <C::Fruit as Tally>::empty()
    }

    fn write_rows(
        &self,
        slots: &[C::Fruit],
        above: Option<Path>,
        bucket: u32,
        out: &mut [Row<C::Fruit>],
        at: usize,
    ) -> usize {
        let mut end = at;
        // By index, as in `spread`: the table may hold a bucket's rows in any form. No bucket has more rows than there are.
        for index in 0..self.inner.num_rows() {
            let Some(row) = self.inner.row_at(bucket, index) else {
                break;
            };
            end = self.write_row(slots, above, row, out, end);
        }
        end
    }

    fn kind_at(&self, down: u32) -> Option<Kind> {
        match down.checked_sub(1) {
            None => Some(self.inner.kind()),
            Some(below) => self.below.kind_at(below),
        }
    }
}
