//! A range level's rows as a table.
ghost use Rattle.range_rows.specs.Requests.{level_asked, request_fault};
ghost use Rattle.range_rows.specs.Shown.{shown, rows_below};
ghost use Rattle.range_rows.specs.Numbering;

use crate::request::RangeRequest;
use crate::table::RangeRows;
use buckets::range::{RangeAggregationRange, extend_ranges, validate_ranges};
use limits::agg_limits::AggregationLimits;
use records::column_type::ColumnType;
use records::fault::{Fault, Refusal};
use records::kind::Kind;
use rows::table::RowTable;
use segments::segment::Segment;

impl RowTable for RangeRows {
    type Request = RangeRequest;

    ghost table = { shown };

    ghost asked = { level_asked };

    ghost refused = { request_fault };

    ghost listed = { rows_below };

    ghost sound = { λ c. Numbering.sound c };

    ghost lists = { λ c b. Numbering.lists c b };

    fn check<S: Segment>(
        request: &RangeRequest,
        ranges: &[RangeAggregationRange],
        seg: &S,
        level: u32,
    ) -> Result<(), Fault> {
        // Said at each level in std's words: a name for the expression would be as long.
        let unknown = Refusal::UnknownColumn.at(level);
        let field_type = seg.column_type(request.column).ok_or(unknown)?;
        validate_ranges(request.ranges(ranges), field_type, level)
    }

    fn reset<S: Segment>(
        &mut self,
        request: &RangeRequest,
        ranges: &[RangeAggregationRange],
        seg: &S,
        level: u32,
    ) {
        // U64 where the column is unknown, which `check` refuses: in std's words, as there.
        let field_type = seg.column_type(request.column).unwrap_or(ColumnType::U64);
        self.tiling = extend_ranges(request.ranges(ranges), field_type);
        self.counts.reset(level);
        self.column = request.column;
    }

    // A field, which the trait cannot name.
    fn column(&self) -> u32 {
        self.column
    }

    fn kind(&self) -> Kind {
        Kind::Range
    }

    // One call each on the counts: a counts_mut would have to promise what comes back when the borrow ends.
    fn number(&self) -> u32 {
        self.counts.level
    }

    fn num_rows(&self) -> usize {
        self.counts.num_rows()
    }

    fn prepare(&mut self, limits: &mut AggregationLimits, buckets: u32) -> Result<(), Fault> {
        let wanted = self.first_row(buckets);
        self.make_rows(limits, wanted)
    }

    fn row_for(
        &mut self,
        limits: &mut AggregationLimits,
        bucket: u32,
        val: u64,
    ) -> Result<Option<usize>, Fault> {
        let wanted = self.first_row(bucket) + self.tiling.num_tiles();
        self.make_rows(limits, wanted)?;
        Ok(Some(self.row_of(bucket, val)))
    }

    fn count_up(&mut self, row: usize) -> Result<(), Fault> {
        self.counts.count_up(row)
    }

    fn row_at(&self, bucket: u32, index: usize) -> Option<usize> {
        if index >= self.tiling.num_tiles() {
            return None;
        }
        let row = self.first_row(bucket) + index;
        (row < self.counts.num_rows()).then_some(row)
    }

    fn step_of(&self, row: usize) -> i64 {
        (row % self.tiling.num_tiles()) as i64
    }

    fn count_of(&self, row: usize) -> u64 {
        self.counts.count_of(row)
    }
}

#[cfg(test)]
mod tests {
    use super::*;
    use segments::dense::DenseSegment;

    // The table of level 3 with the ranges 10–20 and 30–, so with the tiles 0–10, 10–20, 20–30 and 30–.
    fn four_tiles() -> RangeRows {
        let types = [ColumnType::U64];
        let seg = DenseSegment {
            num_docs: 0,
            column_types: &types,
            values: &[],
        };
        let request = RangeRequest {
            column: 0,
            start: 1,
            count: 9,
        };
        let ranges = [
            RangeAggregationRange {
                from: None,
                to: None,
            },
            RangeAggregationRange {
                from: Some(10.0),
                to: Some(20.0),
            },
            RangeAggregationRange {
                from: Some(30.0),
                to: None,
            },
        ];
        let mut table = RangeRows::new();
        table.reset(&request, &ranges, &seg, 3);
        table
    }

    #[test]
    fn rows_of_values(rt: HostRuntime) {
        let mut limits = AggregationLimits {
            limit: 100,
            used: 0,
        };
        let mut table = four_tiles();
        assert_eq!(rt; table.row_for(&mut limits, 1, 20).ok(), Some(Some(6)));
        assert_eq!(rt; limits.used, 8);
        assert!(rt; table.count_up(6).is_ok());
        assert_eq!(rt; table.row_at(1, 2), Some(6));
        assert_eq!(rt; table.row_at(2, 0), None);
        assert_eq!(rt; table.step_of(6), 2);
        assert_eq!(rt; table.count_of(6), 1);
    }

    #[test]
    fn too_many_rows(rt: HostRuntime) {
        let mut limits = AggregationLimits {
            limit: 1000,
            used: 0,
        };
        let mut table = four_tiles();
        assert_eq!(rt; table.prepare(&mut limits, 128).err(), None);
        assert_eq!(rt; table.num_rows(), 512);
        assert_eq!(rt;
            table.prepare(&mut limits, 129).err(),
            Some(Refusal::TooManyRows.at(3))
        );
        assert_eq!(rt; table.num_rows(), 512);
        assert_eq!(rt; limits.used, 512);
    }

    #[test]
    fn an_allowance_one_short(rt: HostRuntime) {
        let mut limits = AggregationLimits { limit: 7, used: 0 };
        let mut table = four_tiles();
        assert_eq!(rt;
            table.prepare(&mut limits, 2).err(),
            Some(Refusal::AllowanceExceeded.at(3))
        );
        assert_eq!(rt; table.num_rows(), 7);
        assert_eq!(rt; limits.used, 8);
        assert_eq!(rt; table.row_at(1, 2), Some(6));
        assert_eq!(rt; table.row_at(1, 3), None);
    }
}
