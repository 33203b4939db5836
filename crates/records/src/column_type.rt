//! What a column's u64 values stand for.
ghost use Rattle.std.specs.Prelude.{◌≡◌};
ghost use Rattle.records.specs.ColumnTypes.{rule, scaled};

/// The type of a column.
#[derive(Clone, Copy, Debug, PartialEq, Eq)]
pub enum ColumnType {
    U64,
    I64,
    F64,
    Bool,
    /// Nanoseconds since the epoch.
    DateTime,
}

/// A number of a request in the column's own unit: a DateTime column counts nanoseconds, and requests speak of
/// milliseconds; on every other column the number stays as it is.
pub fn in_column_unit(t: ColumnType, x: f64) -> f64
    ensures { result ≡ scaled (rule t).factor x }
{
    match t {
        ColumnType::DateTime => x * 1_000_000.0,
        ColumnType::U64 | ColumnType::I64 | ColumnType::F64 | ColumnType::Bool => x,
    }
}
