//! Segments: documents with columns of values, behind one interface.

#![tactic(auto)]

pub mod dense;
pub mod offset;
pub mod segment;

#[cfg(test)]
mod tests {
    use crate::dense::DenseSegment;
    use crate::offset::OffsetSegment;
    use crate::segment::Segment;
    use records::column_type::ColumnType;

    #[test]
    fn a_dense_slice_one_short(rt: HostRuntime) {
        let types = [ColumnType::U64, ColumnType::F64];
        let values = [10, 11, 20];
        let seg = DenseSegment {
            num_docs: 2,
            column_types: &types,
            values: &values,
        };
        assert_eq!(rt; seg.value_at(0, 1, 0), Some(11));
        assert_eq!(rt; seg.value_at(0, 1, 1), None);
        assert_eq!(rt;
            seg.value_at(0, 2, 0),
            None,
            "document 2 is unknown, though the slice goes on"
        );
        assert_eq!(rt; seg.value_at(1, 0, 0), Some(20));
        assert_eq!(rt; seg.num_values(1, 1), 0, "missing at the end");
        assert_eq!(rt; seg.column_type(2), None);
    }

    #[test]
    fn offsets_that_give_none(rt: HostRuntime) {
        let types = [ColumnType::U64, ColumnType::I64];
        // column 0: two values, none, falling; column 1: past the end, then missing offsets
        let offsets = [0, 2, 2, 1, 1, 4];
        let values = [5, 6, 7];
        let seg = OffsetSegment {
            num_docs: 3,
            column_types: &types,
            offsets: &offsets,
            values: &values,
        };
        assert_eq!(rt; seg.num_values(0, 0), 2);
        assert_eq!(rt; seg.value_at(0, 0, 1), Some(6));
        assert_eq!(rt; seg.value_at(0, 0, 2), None);
        assert_eq!(rt; seg.num_values(0, 1), 0);
        assert_eq!(rt; seg.num_values(0, 2), 0, "falling");
        assert_eq!(rt; seg.num_values(0, 3), 0, "document 3 is unknown");
        assert_eq!(rt; seg.num_values(1, 0), 0, "past the end");
        assert_eq!(rt; seg.num_values(1, 1), 0, "missing");
        assert_eq!(rt; seg.num_values(2, 0), 0, "column 2 is unknown");
    }

    #[test]
    fn an_empty_segment(rt: HostRuntime) {
        let seg = DenseSegment {
            num_docs: 0,
            column_types: &[],
            values: &[],
        };
        assert_eq!(rt; seg.num_docs(), 0);
        assert_eq!(rt; seg.num_values(0, 0), 0);
    }
}
