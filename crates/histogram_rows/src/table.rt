//! The table of a histogram level, as levels use it.
ghost use Rattle.std.specs.Prelude.{◌≡◌, ℕ, ◌+◌, ◌-◌, ◌^◌, ◌<◌, ◌≤◌, MatchOption, MatchResult};
ghost use Rattle.std.specs.List.{slice_get};
ghost use Rattle.stack.specs.Levels.{step_of};
ghost use Rattle.rows.specs.Tables.{Table};
ghost use Rattle.histogram_rows.specs.Rows.{table_of, listed_of, asked_of, refused_of};
ghost use Rattle.histogram_rows.specs.Listing;

use crate::histogram_rows::HistogramRows;
use crate::request::HistogramRequest;
use crate::slot::Slot;
use buckets::grid::Grid;
use buckets::histogram::validate_histogram;
use buckets::range::RangeAggregationRange;
use limits::agg_limits::AggregationLimits;
use numbers::fast_field::f64_from_fastfield_u64;
use records::column_type::ColumnType;
use records::fault::{Fault, Refusal};
use records::kind::Kind;
use rows::counts::{Counts, MOST_ROWS};
use rows::table::RowTable;
use segments::segment::Segment;

impl HistogramRows {
    /// A table with no rows, for no request yet.
    pub fn new() -> HistogramRows
        ensures { ((table_of result).rows ≡ 0) × ((table_of result).number ≡ 0) }
    {
        HistogramRows {
            counts: Counts::new(0),
            slots: [Slot {
                bucket: 0,
                position: 0,
            }; MOST_ROWS],
            order: [0; MOST_ROWS],
            last: 0,
            grid: Grid {
                interval: 1.0,
                offset: 0.0,
                hard_bounds: None,
                extended_bounds: None,
                min_doc_count: 0,
            },
            field_type: ColumnType::U64,
            column: 0,
        }
    }

    /// The position of a value of the column; none where it is not counted.
    fn position_of(&self, val: u64) -> Option<i64>
        ensures { result ≡ step_of (table_of self.now).level val }
    {
        let number = f64_from_fastfield_u64(val, self.field_type);
        self.grid.position(number)
    }
}

impl RowTable for HistogramRows {
    type Request = HistogramRequest;

    ghost table = { table_of };

    ghost asked = { λ q ranges types. asked_of q (types q.column) };

    ghost refused = { λ q ranges types n. refused_of q (types q.column) n };

    ghost listed = { listed_of };

    ghost sound = { λ c. Listing.sound c };

    ghost lists = { λ c b. Listing.listed c b };

    fn check<S: Segment>(
        request: &HistogramRequest,
        ranges: &[RangeAggregationRange],
        seg: &S,
        level: u32,
    ) -> Result<(), Fault> {
        // Said at each level in std's words: a name for the expression would be as long.
        let unknown = Refusal::UnknownColumn.at(level);
        let field_type = seg.column_type(request.column).ok_or(unknown)?;
        validate_histogram(&request.aggregation, field_type, level)
    }

    fn reset<S: Segment>(
        &mut self,
        request: &HistogramRequest,
        ranges: &[RangeAggregationRange],
        seg: &S,
        level: u32,
    ) {
        // U64 where the column is unknown, which `check` refuses: in std's words, as there.
        let field_type = seg.column_type(request.column).unwrap_or(ColumnType::U64);
        self.grid = Grid::new(&request.aggregation, field_type);
        self.field_type = field_type;
        self.column = request.column;
        self.counts.reset(level);
    }

    // A field, which the trait cannot name.
    fn column(&self) -> u32 {
        self.column
    }

    fn kind(&self) -> Kind {
        Kind::Histogram
    }

    // One call each, as in the other table. The trait does not lend out the counts instead: a `counts_mut` would have to
    // promise what comes back when the borrow ends.
    fn number(&self) -> u32 {
        self.counts.level
    }

    fn num_rows(&self) -> usize {
        self.counts.num_rows()
    }

    /// Nothing: a histogram's rows stand only where a value was counted.
    fn prepare(&mut self, limits: &mut AggregationLimits, buckets: u32) -> Result<(), Fault> {
        Ok(())
    }

    fn row_for(
        &mut self,
        limits: &mut AggregationLimits,
        bucket: u32,
        val: u64,
    ) -> Result<Option<usize>, Fault> {
        let Some(position) = self.position_of(val) else {
            return Ok(None);
        };
        let row = self.row_of(limits, Slot { bucket, position })?;
        Ok(Some(row))
    }

    fn count_up(&mut self, row: usize) -> Result<(), Fault> {
        self.counts.count_up(row)
    }

    fn row_at(&self, bucket: u32, index: usize) -> Option<usize> {
        let first = self.first_below(bucket);
        self.nth_from(first, bucket, index)
    }

    fn step_of(&self, row: usize) -> i64 {
        if row < self.counts.num_rows() {
            self.slots[row].position
        } else {
            0
        }
    }

    fn count_of(&self, row: usize) -> u64 {
        self.counts.count_of(row)
    }
}
