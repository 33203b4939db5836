//! The table of a histogram level.

#![tactic(auto)]

pub mod histogram_rows;
mod index;
mod making;
pub mod request;
mod slot;
pub mod table;

#[cfg(test)]
mod tests {
    use crate::histogram_rows::HistogramRows;
    use crate::request::HistogramRequest;
    use buckets::histogram::HistogramAggregation;
    use limits::agg_limits::AggregationLimits;
    use records::column_type::ColumnType;
    use records::fault::Refusal;
    use rows::table::RowTable;
    use segments::dense::DenseSegment;

    fn request(column: u32, interval: f64) -> HistogramRequest {
        HistogramRequest {
            column,
            aggregation: HistogramAggregation {
                interval,
                offset: None,
                min_doc_count: 0,
                hard_bounds: None,
                extended_bounds: None,
            },
        }
    }

    // A table at level 2 over a U64 column, 0, or an I64 column, 1.
    fn table(column: u32, interval: f64) -> HistogramRows {
        let seg = DenseSegment {
            num_docs: 0,
            column_types: &[ColumnType::U64, ColumnType::I64],
            values: &[],
        };
        let mut rows = HistogramRows::new();
        rows.reset(&request(column, interval), &[], &seg, 2);
        rows
    }

    #[test]
    fn at_most_512_rows(rt: HostRuntime) {
        let mut limits = AggregationLimits {
            limit: 1000,
            used: 0,
        };
        let mut rows = table(0, 1.0);
        for val in 0..512u64 {
            assert!(rt; rows.row_for(&mut limits, 3, val).is_ok());
        }
        assert_eq!(rt; rows.num_rows(), 512);
        assert_eq!(rt;
            rows.row_for(&mut limits, 3, 512).err(),
            Some(Refusal::TooManyRows.at(2))
        );
        assert_eq!(rt;
            rows.row_for(&mut limits, 3, 511).unwrap_or(None),
            Some(511)
        );
        assert_eq!(rt; limits.used, 512);
    }

    #[test]
    fn an_allowance_one_short(rt: HostRuntime) {
        let mut limits = AggregationLimits { limit: 2, used: 0 };
        let mut rows = table(0, 10.0);
        assert!(rt; rows.row_for(&mut limits, 0, 19).is_ok());
        assert!(rt; rows.row_for(&mut limits, 0, 10).is_ok());
        assert!(rt; rows.row_for(&mut limits, 1, 10).is_ok());
        assert_eq!(rt;
            rows.row_for(&mut limits, 1, 20).err(),
            Some(Refusal::AllowanceExceeded.at(2))
        );
        assert_eq!(rt; rows.num_rows(), 2);
        assert_eq!(rt; limits.used, 3);
    }

    fn step(rows: &HistogramRows, bucket: u32, index: usize) -> Option<i64> {
        rows.row_at(bucket, index).map(|row| rows.step_of(row))
    }

    fn steps(rows: &HistogramRows, bucket: u32) -> [Option<i64>; 3] {
        [
            step(rows, bucket, 0),
            step(rows, bucket, 1),
            step(rows, bucket, 2),
        ]
    }

    #[test]
    fn listed_by_rising_position(rt: HostRuntime) {
        let mut limits = AggregationLimits {
            limit: 1000,
            used: 0,
        };
        let mut rows = table(1, 1.0);
        // The value of an I64 column that stands for 0.
        let zero = 0x8000_0000_0000_0000;
        for (bucket, val) in [
            (7, zero + 5),
            (2, zero + 9),
            (7, zero - 3),
            (2, zero - 9),
            (7, zero),
        ] {
            assert!(rt; rows.row_for(&mut limits, bucket, val).is_ok());
        }
        assert_eq!(rt; steps(&rows, 2), [Some(-9), Some(9), None]);
        assert_eq!(rt; steps(&rows, 7), [Some(-3), Some(0), Some(5)]);
    }
}
