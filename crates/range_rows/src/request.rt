//! The request of a range level.
ghost use Rattle.std.specs.Prelude.{◌≡◌};
ghost use Rattle.range_rows.specs.Requests.{own_ranges};

use buckets::range::RangeAggregationRange;
use segments::segment::cut;

/// What is asked of a range level: the column that it sorts, and which of the ranges lent with the call are its own.
// By index: a request is plain, and its ranges lie in the slice that is lent beside it.
#[derive(Clone, Copy, Debug)]
pub struct RangeRequest {
    pub column: u32,
    /// The index of its first range.
    pub start: usize,
    /// How many ranges it has; fewer where the lent ranges end before.
    pub count: usize,
}

impl RangeRequest {
    /// The level's own ranges.
    pub fn ranges<'a>(&self, ranges: &'a [RangeAggregationRange]) -> &'a [RangeAggregationRange]
        ensures { result.now ≡ own_ranges self.now ranges.now }
    {
        cut(ranges, self.start, self.count)
    }
}
