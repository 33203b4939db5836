//! The interface of a segment.
ghost use Rattle.std.specs.Prelude.{◌≡◌, ◌*◌, ◌^◌, ◌<◌, ◌≤◌, [], length, take, drop};
ghost use Rattle.std.specs.List.{slice_get};
ghost use Rattle.segments.specs.Segments.{Seg, values, Reading};

use records::column_type::ColumnType;

/// Documents with columns of values. Every question leaves the segment unaltered and always answers alike.
///
/// A segment is a small view that can be copied: a loop that reads much copies it to a local first, `let seg = *seg;`,
/// so that its fields stay in registers beside what the loop writes.
pub trait Segment: Copy {
    /// What the segment holds.
    ghost means: { Self → Seg };

    /// How many documents there are; they are numbered from 0.
    fn num_docs(&self) -> u32
        ensures { result ≡ (means self.now).docs };

    /// The type of a column; none where there is no such column.
    fn column_type(&self, column: u32) -> Option<ColumnType>
        ensures { result ≡ (means self.now).column_type column };

    /// How many values a document has in a column.
    fn num_values(&self, column: u32, doc: u32) -> usize
        ensures { result ≡ length (values (means self.now) column doc) };

    /// The value at an index; none past the last.
    fn value_at(&self, column: u32, doc: u32, index: usize) -> Option<u64>
        ensures { result ≡ slice_get (values (means self.now) column doc) index };
}

/// A segment in slices: the values of a document in a column are one part of a slice.
pub(crate) trait Sliced: Copy {
    // `docs` and `types` ask for a field each, which a trait cannot name.
    ghost holds: { Self → Seg };

    fn docs(&self) -> u32
        ensures { result ≡ (holds self.now).docs };

    fn types(&self) -> &[ColumnType]
        ensures { slice_get result.now ≡ (holds self.now).column_type };

    fn part(&self, column: u32, doc: u32) -> &[u64]
        ensures { result.now ≡ values (holds self.now) column doc };
}

impl<S: Sliced> Segment for S {
    ghost means = { S.holds };

    fn num_docs(&self) -> u32 {
        self.docs()
    }

    fn column_type(&self, column: u32) -> Option<ColumnType> {
        self.types().get(column as usize).copied()
    }

    fn num_values(&self, column: u32, doc: u32) -> usize {
        self.part(column, doc).len()
    }

    fn value_at(&self, column: u32, doc: u32, index: usize) -> Option<u64> {
        self.part(column, doc).get(index).copied()
    }
}

/// The part of a slice from a place on, of the given length, or shorter where the slice ends before.
pub fn cut<T>(all: &[T], start: usize, len: usize) -> &[T]
    ensures { result.now ≡ take len (drop start all.now) }
{
    let rest = all.get(start..).unwrap_or_default();
    rest.get(..len).unwrap_or(rest)
}

/// What a column holds in a slice of columns of one width, as far as the slice goes; an unknown column holds nothing.
pub(crate) fn column_in<'a, T>(
    types: &[ColumnType],
    all: &'a [T],
    column: u32,
    width: usize,
) -> &'a [T]
    requires { width ≤ 2 ^ 32 }
    ensures known { column < length types.now → result.now ≡ take width (drop (column * width) all.now) }
    ensures unknown { length types.now ≤ column → result.now ≡ [] }
{
    if column as usize >= types.len() {
        return &[];
    }
    cut(all, column as usize * width, width)
}

/// Unknown columns and documents have no values, and reading by index from 0 reads a whole list.
pub fn reading_stands()
    ensures { Reading }
{}
