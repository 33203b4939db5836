//! A path's struct, apart from its functions, so that specs can name it.
ghost use Rattle.std.specs.Prelude.{◌≡◌, ◌≤◌, length};

/// Where a reading lies: one to three steps, one a level from the top. A step is a tile's index or a slot's position.
/// The array has room for a fourth step; only the first `len` count.
// A table with its length, and no ArrayVec, which is not Copy: rows are copied with their paths.
#[derive(Clone, Copy, Debug)]
pub struct Path {
    pub(crate) steps: [i64; 4],
    pub(crate) len: u8,
    ghost some: { 1 ≤ len },
    ghost few: { len ≤ 3 },
    ghost whole: { length steps ≡ 4 },
}
