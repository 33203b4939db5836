//! The struct of a range level's table, apart from its functions, so that specs can name it.
use buckets::tiling::Tiling;
use rows::counts::Counts;

/// What a range level keeps: its tiling and the counts of its rows. The row of a bucket's tile is numbered
/// bucket × tiles + tile.
#[derive(Clone, Copy)]
pub struct RangeRows {
    pub(crate) counts: Counts,
    pub(crate) tiling: Tiling,
    pub(crate) column: u32,
}
