//! The dense segment.
ghost use Rattle.std.specs.Prelude.{◌≡◌, ℕ};
ghost use Rattle.std.specs.List.{slice_get};
ghost use Rattle.std.specs.Option.{option_to_list};
ghost use Rattle.segments.specs.Segments.{values, of_dense};

use crate::segment::{Sliced, column_in, cut};
use records::column_type::ColumnType;

/// A segment with one value for each document and column: the value of document d in column c stands at
/// c × num_docs + d. Any slices will do; a place past the end has no value.
#[derive(Clone, Copy)]
pub struct DenseSegment<'a> {
    pub num_docs: u32,
    pub column_types: &'a [ColumnType],
    pub values: &'a [u64],
}

impl<'a> DenseSegment<'a> {
    // The values of a column, one for each document from the first, as far as the slice goes.
    fn column(&self, column: u32) -> &'a [u64]
        ensures { (doc : ℕ) → option_to_list (slice_get result.now doc) ≡ values (of_dense self.now) column doc }
    {
        let width = self.num_docs as usize;
        column_in(self.column_types, self.values, column, width)
    }
}

impl Sliced for DenseSegment<'_> {
    ghost holds = { of_dense };

    fn docs(&self) -> u32 {
        self.num_docs
    }

    fn types(&self) -> &[ColumnType] {
        self.column_types
    }

    fn part(&self, column: u32, doc: u32) -> &[u64] {
        cut(self.column(column), doc as usize, 1)
    }
}
