//! The u64 values of a column as numbers, and numbers as such values.
ghost use Rattle.std.specs.Prelude.{◌≡◌, if◌then◌else◌, Some, None, is_nan};
ghost use Rattle.numbers.specs.Columns.{number_of, value_of};

use crate::mapping::{f64_to_u64, i64_to_u64, u64_to_f64, u64_to_i64};
use crate::whole::ceil;
use records::column_type::ColumnType;
use std::num::{nearest_i64_to_f64, nearest_u64_to_f64};

/// The number that a value of a column stands for, rounded to the nearest f64, ties to even. On a F64 column a value
/// whose bits are no number's gives NaN.
pub fn f64_from_fastfield_u64(val: u64, field_type: ColumnType) -> f64
    ensures { result ≡ number_of field_type val }
{
    match field_type {
        ColumnType::U64 | ColumnType::Bool => nearest_u64_to_f64(val),
        ColumnType::I64 | ColumnType::DateTime => nearest_i64_to_f64(u64_to_i64(val)),
        ColumnType::F64 => u64_to_f64(val),
    }
}

/// The value of a column at which a range that begins or ends at `val` does so; none for a NaN. On a F64 column it is the
/// value that stands for `val`, on any other the least one whose whole number is not below `val`, and the last one where
/// there is none.
pub fn f64_to_fastfield_u64(val: f64, field_type: ColumnType) -> Option<u64>
    ensures { result ≡ (if is_nan val then None else Some (value_of field_type val)) }
{
    if val.is_nan() {
        return None;
    }
    match field_type {
        ColumnType::U64 | ColumnType::Bool => Some(ceil(val)),
        ColumnType::I64 | ColumnType::DateTime => Some(i64_to_u64(ceil(val))),
        ColumnType::F64 => Some(f64_to_u64(val)),
    }
}

#[cfg(test)]
mod tests {
    use super::*;

    #[test]
    fn ends_of_ranges(rt: HostRuntime) {
        assert_eq!(rt; f64_to_fastfield_u64(12.5, ColumnType::U64), Some(13));
        assert_eq!(rt; f64_to_fastfield_u64(-1.0, ColumnType::U64), Some(0));
        assert_eq!(rt; f64_to_fastfield_u64(1e30, ColumnType::U64), Some(u64::MAX));
        assert_eq!(rt;
            f64_to_fastfield_u64(-0.5, ColumnType::I64),
            Some(0x8000_0000_0000_0000)
        );
        assert_eq!(rt;
            f64_to_fastfield_u64(-0.5, ColumnType::F64),
            Some(0x401f_ffff_ffff_ffff)
        );
        assert_eq!(rt; f64_to_fastfield_u64(f64::NAN, ColumnType::F64), None);
    }
}
