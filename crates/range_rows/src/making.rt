//! Where a bucket's rows lie, and making rows up to there.
ghost use Rattle.std.specs.Prelude.{◌≡◌, ◌+◌, ◌*◌, ◌<◌, [], ◌∷◌, MatchResult};
ghost use Rattle.buckets.specs.Tilings.{starts_of, tile_of};
ghost use Rattle.stack.specs.Levels.{range_level};
ghost use Rattle.range_rows.specs.Shown.{tiles_of, shown, Made, Short};

use crate::table::RangeRows;
use buckets::tiling::Tiling;
use limits::agg_limits::AggregationLimits;
use records::fault::Fault;
use rows::counts::Counts;

impl RangeRows {
    /// A table with one tile and no rows.
    pub fn new() -> RangeRows
        ensures { ((shown result).rows ≡ 0) × ((shown result).number ≡ 0) × ((shown result).level ≡ range_level 0 (0 ∷ [])) }
    {
        RangeRows {
            counts: Counts::new(0),
            tiling: Tiling::whole(),
            column: 0,
        }
    }

    /// The number of a bucket's first row: so many rows have the buckets before it.
    pub(crate) fn first_row(&self, bucket: u32) -> usize
        ensures { result ≡ bucket * tiles_of self.now }
    {
        bucket as usize * self.tiling.num_tiles()
    }

    /// The number of a value's row below a bucket.
    pub(crate) fn row_of(&self, bucket: u32, val: u64) -> usize
        ensures value { result ≡ bucket * tiles_of self.now + tile_of (starts_of self.now.tiling) val }
        ensures inside { result < bucket * tiles_of self.now + tiles_of self.now }
    {
        self.first_row(bucket) + self.tiling.get_bucket_pos(val)
    }

    /// Makes rows until there are as many as wanted.
    pub(crate) fn make_rows(
        &mut self,
        limits: &mut AggregationLimits,
        wanted: usize,
    ) -> Result<(), Fault>
        ensures { MatchResult result (λ _. Made self.old self.new limits.old limits.new wanted) (λ f. Short self.old self.new limits.old limits.new wanted f) }
    {
        for _ in self.counts.num_rows()..wanted {
            self.counts.make_row(limits)?;
        }
        Ok(())
    }
}
