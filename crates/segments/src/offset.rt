//! The offset segment.
ghost use Rattle.std.specs.Prelude.{◌≡◌, ℕ, ◌+◌};
ghost use Rattle.std.specs.List.{slice_get};
ghost use Rattle.segments.specs.Segments.{values, between, of_offset};

use crate::segment::{Sliced, column_in};
use records::column_type::ColumnType;

/// A segment with any number of values for each document and column. Column c has one offset for each document and one
/// more, from c × (num_docs + 1) on; the values of document d lie in the value slice between its offset and the next.
/// Any slices will do; offsets that are missing, that fall or that pass the end of the values give no value.
#[derive(Clone, Copy)]
pub struct OffsetSegment<'a> {
    pub num_docs: u32,
    pub column_types: &'a [ColumnType],
    pub offsets: &'a [u32],
    pub values: &'a [u64],
}

impl<'a> OffsetSegment<'a> {
    // The offsets of a column, as far as the slice goes.
    fn column(&self, column: u32) -> &'a [u32]
        ensures { (doc : ℕ) → between (slice_get result.now doc) (slice_get result.now (doc + 1)) self.now.values.now ≡ values (of_offset self.now) column doc }
    {
        let width = self.num_docs as usize + 1;
        column_in(self.column_types, self.offsets, column, width)
    }
}

impl Sliced for OffsetSegment<'_> {
    ghost holds = { of_offset };

    fn docs(&self) -> u32 {
        self.num_docs
    }

    fn types(&self) -> &[ColumnType] {
        self.column_types
    }

    fn part(&self, column: u32, doc: u32) -> &[u64] {
        let offsets = self.column(column);
        let at = doc as usize;
        let Some(end) = offsets.get(at + 1) else {
            return &[];
        };
        self.values
            .get(offsets[at] as usize..*end as usize)
            .unwrap_or_default()
    }
}
