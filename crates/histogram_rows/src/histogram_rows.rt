//! A histogram level's table, apart from its functions, so that specs can name it.
ghost use Rattle.std.specs.Prelude.{◌≡◌, ℕ, ◌-◌, ◌^◌, ◌<◌, true, false, length, take, negsuc, int_lt, slice_index};
ghost use Rattle.histogram_rows.specs.Index.{slot_at, Precedes, among};

use crate::slot::Slot;
use buckets::grid::Grid;
use records::column_type::ColumnType;
use rows::counts::{Counts, MOST_ROWS};

/// The rows of a histogram level, numbered in the order of making: for each its slot and its count.
///
/// Beside them `order` lists the rows' numbers, rising by slot.
// `slots` lies beside the counts, not in one array of rows with them: the counts are another crate's, which keeps them for
// both kinds of table. `order` is a sorted index in place of a map: tables are Copy and need no heap.
#[derive(Clone, Copy)]
pub struct HistogramRows {
    pub(crate) counts: Counts,
    pub(crate) slots: [Slot; MOST_ROWS],
    pub(crate) order: [usize; MOST_ROWS],
    /// The row that was found last.
    pub(crate) last: usize,
    pub(crate) grid: Grid,
    pub(crate) field_type: ColumnType,
    pub(crate) column: u32,
    ghost long_slots: { length slots ≡ 512 },
    ghost long_order: { length order ≡ 512 },
    ghost least: { (k : ℕ) → k < counts.rows → int_lt (slot_at slots k).position (negsuc (2 ^ 63 - 1)) ≡ false },
    ghost inside: { (i : ℕ) → i < counts.rows → slice_index order i < counts.rows },
    ghost all: { (k : ℕ) → k < counts.rows → among k (take counts.rows order) ≡ true },
    ghost rises: { (i j : ℕ) → (i < j) × (j < counts.rows) → Precedes slots (slice_index order i) (slice_index order j) },
}
