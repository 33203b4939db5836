//! Range and histogram levels.
use collectors::bucket_collector::SegmentBucketCollector;
use histogram_rows::histogram_rows::HistogramRows;
use range_rows::table::RangeRows;

/// A range level above a cache.
pub type SegmentRangeCollector<C> = SegmentBucketCollector<RangeRows, C>;

/// A histogram level above a cache.
pub type SegmentHistogramCollector<C> = SegmentBucketCollector<HistogramRows, C>;

#[cfg(test)]
mod tests {
    use super::*;
    use bottom::metric_collector::{MetricRequest, SegmentMetricCollector};
    use buckets::histogram::HistogramAggregation;
    use buckets::range::RangeAggregationRange;
    use caches::high_card::HighCardSubAggCache;
    use caches::low_card::LowCardSubAggCache;
    use collectors::bucket_collector::LevelRequest;
    use histogram_rows::request::HistogramRequest;
    use limits::agg_limits::AggregationLimits;
    use metrics::number::Number;
    use metrics::tally::Tally;
    use range_rows::request::RangeRequest;
    use records::column_type::ColumnType;
    use records::fault::Fault;
    use records::path::Path;
    use records::row::Row;
    use rows::table::RowTable;
    use segments::dense::DenseSegment;
    use segments::offset::OffsetSegment;
    use segments::segment::Segment;
    use stack::cache::SubAggCache;
    use stack::level::SegmentAggregationCollector;
    use std::process::Abort;

    type Bottom = SegmentMetricCollector<Number>;

    // Requests, each a level above the one before: flows, times, stages.
    type Flows = LevelRequest<RangeRequest, MetricRequest>;

    type Times = LevelRequest<HistogramRequest, Flows>;

    type Stages = LevelRequest<RangeRequest, Times>;

    fn range<C>(below: C) -> SegmentRangeCollector<C> {
        SegmentBucketCollector {
            inner: RangeRows::new(),
            below,
        }
    }

    fn histogram<C>(below: C) -> SegmentHistogramCollector<C> {
        SegmentBucketCollector {
            inner: HistogramRows::new(),
            below,
        }
    }

    // Runs two blocks through a stack and writes its rows: how many there are.
    fn run<L: SegmentAggregationCollector<Fruit = Number>, S: Segment>(
        stack: &mut L,
        request: &L::Request,
        ranges: &[RangeAggregationRange],
        seg: &S,
        blocks: [&[u32]; 2],
        out: &mut [Row<Number>],
    ) -> Result<usize, Fault> {
        let mut limits = AggregationLimits { limit: 19, used: 0 };
        let mut slots = [Number::empty(); 16];
        L::check(request, ranges, seg, 1)?;
        stack.reset(request, ranges, seg, &mut slots, 1);
        for block in blocks {
            stack.collect(seg, &mut limits, &mut slots, 0, block)?;
        }
        stack.flush(seg, &mut limits, &mut slots)?;
        stack.prepare_max_bucket(&mut limits, &slots, 1)?;
        Ok(stack.write_rows(&slots, None, 0, out, 0))
    }

    const RANGES: [RangeAggregationRange; 3] = [
        RangeAggregationRange {
            from: Some(10.0),
            to: Some(20.0),
        },
        RangeAggregationRange {
            from: Some(30.0),
            to: None,
        },
        RangeAggregationRange {
            from: Some(5.0),
            to: None,
        },
    ];

    // What is asked of three levels: stages in the ranges 10–20 and 30–, times in slots of 10, flows in the range 5–.
    fn request() -> Stages {
        let times = HistogramAggregation {
            interval: 10.0,
            offset: None,
            min_doc_count: 0,
            hard_bounds: None,
            extended_bounds: None,
        };
        let flows = RangeRequest {
            column: 2,
            start: 2,
            count: 1,
        };
        let below = LevelRequest {
            level: flows,
            below: MetricRequest { column: 0 },
        };
        let below = LevelRequest {
            level: HistogramRequest {
                column: 1,
                aggregation: times,
            },
            below,
        };
        LevelRequest {
            level: RangeRequest {
                column: 0,
                start: 0,
                count: 2,
            },
            below,
        }
    }

    // A path as one number, so that the rows below read as a table: its steps, each plus 1, are the digits.
    fn digits(path: &Path) -> i64 {
        path.steps().iter().fold(0i64, |number, step| {
            number.wrapping_mul(10).wrapping_add(*step).wrapping_add(1)
        })
    }

    // No reading on the path 0: what a row is before it is written.
    fn no_row() -> Row<Number> {
        Row {
            path: Path::first(0),
            count: 0,
            tally: Number::empty(),
        }
    }

    // The rows, by hand: each one's path, its readings, and how many values its tally was fed.
    const ROWS: [(i64, u64, u64); 19] = [
        (1, 0, 0),
        (2, 3, 0),
        (21, 3, 0),
        (211, 3, 4),
        (212, 1, 2),
        (22, 1, 0),
        (221, 1, 2),
        (222, 1, 2),
        (3, 1, 0),
        (31, 1, 0),
        (311, 1, 2),
        (312, 1, 2),
        (32, 1, 0),
        (321, 1, 2),
        (322, 1, 2),
        (4, 1, 0),
        (45, 1, 0),
        (451, 0, 0),
        (452, 2, 2),
    ];

    // Four documents with the columns stage, time and flow. Stages: 12; 25 and 12; none; 31. Times: 5; 7 and 18; none; 40.
    // Flows: 1; 1 and 9; none; 9 and 9. Documents 0, 1, 0 come first, then 3 and 2.
    fn three_levels<L: SegmentAggregationCollector<Fruit = Number, Request = Stages> + Drop>(
        rt: &impl Abort,
        mut stack: L,
    ) {
        let seg = OffsetSegment {
            num_docs: 4,
            column_types: &[ColumnType::U64, ColumnType::U64, ColumnType::U64],
            offsets: &[0, 1, 3, 3, 4, 4, 5, 7, 7, 8, 8, 9, 11, 11, 13],
            values: &[12, 25, 12, 31, 5, 7, 18, 40, 1, 1, 9, 9, 9],
        };
        let mut out = [no_row(); 19];
        let rows = run(
            &mut stack,
            &request(),
            &RANGES,
            &seg,
            [&[0, 1, 0], &[3, 2]],
            &mut out,
        );
        assert_eq!(rt; rows.ok(), Some(19));
        assert_eq!(rt;
            out.map(|row| (digits(&row.path), row.count, row.tally.count())),
            ROWS
        );
    }

    // The levels of times and flows below each cache, below a range level of stages.
    fn below_stages<
        L: SegmentAggregationCollector<Fruit = Number, Request = Times> + Drop,
        F: Fn() -> L,
    >(rt: &impl Abort, times: F)
        requires { F.IsAlwaysCallable times }
    {
        three_levels(rt, range(LowCardSubAggCache::new(times())));
        three_levels(rt, range(HighCardSubAggCache::new(times())));
    }

    // The level of flows below each cache, below a histogram level of times.
    fn below_times<
        L: SegmentAggregationCollector<Fruit = Number, Request = Flows> + Drop,
        F: Fn() -> L,
    >(rt: &impl Abort, flows: F)
        requires { F.IsAlwaysCallable flows }
    {
        below_stages(rt, || histogram(LowCardSubAggCache::new(flows())));
        below_stages(rt, || histogram(HighCardSubAggCache::new(flows())));
    }

    #[test]
    fn rows_in_every_mix_of_caches(rt: HostRuntime) {
        below_times(&rt, || range(LowCardSubAggCache::new(Bottom::new())));
        below_times(&rt, || range(HighCardSubAggCache::new(Bottom::new())));
    }

    // Document 0 has the value 3 and document 1 the value 7; the range is 5–. After the block comes one of document 1.
    fn many_pairs<L: SegmentAggregationCollector<Fruit = Number, Request = Flows> + Drop>(
        rt: &impl Abort,
        mut stack: L,
        block: &[u32],
        counts: [u64; 2],
    ) {
        let seg = DenseSegment {
            num_docs: 2,
            column_types: &[ColumnType::U64],
            values: &[3, 7],
        };
        let level = RangeRequest {
            column: 0,
            start: 2,
            count: 1,
        };
        let request = LevelRequest {
            level,
            below: MetricRequest { column: 0 },
        };
        let mut out = [no_row(); 2];
        let rows = run(&mut stack, &request, &RANGES, &seg, [block, &[1]], &mut out);
        assert_eq!(rt; rows.ok(), Some(2));
        assert_eq!(rt; out.map(|row| row.count), counts);
        assert_eq!(rt; out.map(|row| row.tally.count()), counts);
    }

    // Blocks of 2,047, 2,048 and 2,049 pairs: the cache is full after the pair that follows, after the block, and within it.
    fn around_full<
        L: SegmentAggregationCollector<Fruit = Number, Request = Flows> + Drop,
        F: Fn() -> L,
    >(rt: &impl Abort, stack: F)
        requires { F.IsAlwaysCallable stack }
    {
        let blocks: [(&[u32], u64); 3] = [
            (&[0; 2047], 2047),
            (&[0; 2048], 2048),
            (&[0; 2049], 2049),
        ];
        for (block, pairs) in blocks {
            many_pairs(rt, stack(), block, [pairs, 1]);
        }
    }

    #[test]
    fn caches_one_short_of_full_full_and_past_it(rt: HostRuntime) {
        around_full(&rt, || range(LowCardSubAggCache::new(Bottom::new())));
        around_full(&rt, || range(HighCardSubAggCache::new(Bottom::new())));
    }
}
