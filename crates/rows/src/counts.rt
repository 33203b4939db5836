//! The struct of a level's counts, apart from its functions, so that specs can name it.
ghost use Rattle.std.specs.Prelude.{◌≡◌, ◌≤◌, length};

/// How many rows a level can have.
pub const MOST_ROWS: usize = 512;

/// How many rows a level has, the count of each, and the level's number, which the faults name. Only the first `rows`
/// counts are in use.
// An array and a length, not a growing list: tables are Copy and need no heap.
#[derive(Clone, Copy)]
pub struct Counts {
    pub(crate) counts: [u64; MOST_ROWS],
    pub(crate) rows: usize,
    pub level: u32,
    ghost whole: { length counts ≡ 512 },
    ghost few: { rows ≤ 512 },
}
