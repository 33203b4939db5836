//! A tiling's struct, apart from its functions, so that specs can name it.
ghost use Rattle.std.specs.Prelude.{◌≡◌, ℕ, ◌+◌, ◌-◌, ◌^◌, ◌<◌, ◌≤◌, length, slice_index};

use crate::tiles::MOST_TILES;

/// Tiles that cover the values of a column with no hole: the first starts at 0, each ends where the next one starts, and
/// the last ends at 2^64 − 1. Only the first `len` starts count; 16 ranges make at most 33 tiles.
#[derive(Clone, Copy)]
pub struct Tiling {
    // A fixed table with its length: an `ArrayVec` is not Copy.
    pub(crate) starts: [u64; MOST_TILES],
    pub(crate) len: usize,
    ghost whole: { length starts ≡ 33 },
    ghost some: { 1 ≤ len },
    ghost few: { len ≤ 33 },
    ghost zero: { slice_index starts 0 ≡ 0 },
    ghost rises: { (k : ℕ) → k + 1 < len → slice_index starts k < slice_index starts (k + 1) },
    ghost below: { (k : ℕ) → k < len → slice_index starts k < 2 ^ 64 - 1 },
}
