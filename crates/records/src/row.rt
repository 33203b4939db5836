//! Rows and sheets.
use crate::kind::Kind;
use crate::path::Path;

/// How many readings lie on a path, and the tally of the last level's rows; above it the tally is empty.
#[derive(Clone, Copy)]
pub struct Row<T> {
    pub path: Path,
    pub count: u64,
    pub tally: T,
}

/// What a run or a merge came to: the kinds of its levels, the top's first, and rows that rise strictly by path.
/// Nothing of this is promised by the type: calls that take a sheet refuse one that does not rise.
#[derive(Clone, Copy)]
pub struct Sheet<'a, T> {
    pub kinds: &'a [Kind],
    pub rows: &'a [Row<T>],
}
