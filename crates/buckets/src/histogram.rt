//! The request of a histogram, and when it is refused.
ghost use Rattle.std.specs.Prelude.{◌≡◌, ◌||◌, is_nan};
ghost use Rattle.std.specs.Result.{result_err};
ghost use Rattle.buckets.specs.Grids.{within, outside, in_unit, in_unit_bounds, bad_grid, grid_refusal, histogram_fault};
ghost use Rattle.records.specs.Faults.{Answers};

use records::column_type::{ColumnType, in_column_unit};
use records::fault::{Fault, Refusal};

/// A closed range of numbers, either to limit the slots (hard bounds) or to extend them (extended bounds).
#[derive(Clone, Copy)]
pub struct HistogramBounds {
    pub min: f64,
    pub max: f64,
}

impl HistogramBounds {
    /// Whether a number lies within the bounds, ends included. A NaN does not.
    pub fn contains(&self, val: f64) -> bool
        ensures { result ≡ within self.now val }
    {
        (self.min..=self.max).contains(&val)
    }

    /// Whether an end is a NaN.
    fn has_nan(&self) -> bool
        ensures { result ≡ (is_nan self.now.min || is_nan self.now.max) }
    {
        self.min.is_nan() || self.max.is_nan()
    }

    /// The bounds in the column's unit.
    pub fn in_unit(&self, field_type: ColumnType) -> HistogramBounds
        ensures { result ≡ in_unit_bounds field_type self.now }
    {
        HistogramBounds {
            min: in_column_unit(field_type, self.min),
            max: in_column_unit(field_type, self.max),
        }
    }
}

/// What a histogram level asks for. On a DateTime column every number is in milliseconds.
#[derive(Clone, Copy)]
pub struct HistogramAggregation {
    /// The length of a slot.
    pub interval: f64,
    /// Where a slot begins; 0 if absent.
    pub offset: Option<f64>,
    /// The least count of a row that a finished histogram keeps.
    pub min_doc_count: u64,
    /// Values outside are not counted, and no slots are added outside.
    pub hard_bounds: Option<HistogramBounds>,
    /// Slots are added up to these bounds.
    pub extended_bounds: Option<HistogramBounds>,
}

fn lies_outside(extended: Option<HistogramBounds>, hard: Option<HistogramBounds>) -> bool
    ensures { result ≡ outside extended hard }
{
    extended
        .zip(hard)
        .is_some_and(|(e, h)| e.min < h.min || e.max > h.max)
}

impl HistogramAggregation {
    /// The request in the column's unit.
    pub fn in_unit(&self, field_type: ColumnType) -> HistogramAggregation
        ensures { result ≡ in_unit field_type self.now }
    {
        HistogramAggregation {
            interval: in_column_unit(field_type, self.interval),
            offset: self.offset.map(|x| in_column_unit(field_type, x)),
            min_doc_count: self.min_doc_count,
            hard_bounds: self.hard_bounds.map(|b| b.in_unit(field_type)),
            extended_bounds: self.extended_bounds.map(|b| b.in_unit(field_type)),
        }
    }

    /// Whether the numbers make no grid.
    fn is_bad_grid(&self) -> bool
        ensures { result ≡ bad_grid self.now }
    {
        !self.interval.is_finite()
            || self.interval <= 0.0
            || self.offset.is_some_and(|x| !x.is_finite())
            || self.hard_bounds.is_some_and(|b| b.has_nan())
            || self.extended_bounds.is_some_and(|b| b.has_nan())
    }

    /// Refuses a request that makes no grid, before or after its numbers are turned into the column's unit; then a least
    /// count above 0 with extended bounds; then extended bounds outside the hard ones, as given.
    pub fn validate(&self, field_type: ColumnType) -> Result<(), Refusal>
        ensures { result_err result ≡ grid_refusal field_type self.now }
    {
        if self.is_bad_grid() || self.in_unit(field_type).is_bad_grid() {
            return Err(Refusal::BadGrid);
        }
        if self.min_doc_count > 0 && self.extended_bounds.is_some() {
            return Err(Refusal::MinDocCountWithExtendedBounds);
        }
        if lies_outside(self.extended_bounds, self.hard_bounds) {
            return Err(Refusal::ExtendedBoundsOutsideHard);
        }
        Ok(())
    }
}

/// Refuses a request as `validate` does, for the level that asks.
pub fn validate_histogram(
    req: &HistogramAggregation,
    field_type: ColumnType,
    level: u32,
) -> Result<(), Fault>
    ensures { Answers result (histogram_fault level field_type req.now) }
{
    req.validate(field_type)
        .map_err(|refusal| refusal.at(level))
}

#[cfg(test)]
mod tests {
    use super::*;

    // the refusal for hard bounds from 0 to `hard_max` and extended ones from 0 to `extended_max`.
    fn refused(
        interval: f64,
        min_doc_count: u64,
        hard_max: f64,
        extended_max: f64,
        field_type: ColumnType,
    ) -> Option<Refusal> {
        let req = HistogramAggregation {
            interval,
            offset: None,
            min_doc_count,
            hard_bounds: Some(HistogramBounds {
                min: 0.0,
                max: hard_max,
            }),
            extended_bounds: Some(HistogramBounds {
                min: 0.0,
                max: extended_max,
            }),
        };
        validate_histogram(&req, field_type, 1)
            .err()
            .map(|fault| fault.refusal)
    }

    #[test]
    fn refusals(rt: HostRuntime) {
        assert_eq!(rt; refused(1.0, 0, 9.0, 9.0, ColumnType::F64), None);
        assert_eq!(rt;
            refused(0.0, 1, 9.0, 10.0, ColumnType::F64),
            Some(Refusal::BadGrid)
        );
        assert_eq!(rt;
            refused(1.0, 1, 9.0, 10.0, ColumnType::F64),
            Some(Refusal::MinDocCountWithExtendedBounds)
        );
        assert_eq!(rt;
            refused(1.0, 0, 9.0, 10.0, ColumnType::F64),
            Some(Refusal::ExtendedBoundsOutsideHard)
        );
        assert_eq!(rt;
            refused(1e303, 1, 9.0, 10.0, ColumnType::F64),
            Some(Refusal::MinDocCountWithExtendedBounds)
        );
        assert_eq!(rt;
            refused(1e303, 1, 9.0, 10.0, ColumnType::DateTime),
            Some(Refusal::BadGrid)
        );
        assert_eq!(rt;
            refused(1.0, 0, 1e303, 2e303, ColumnType::DateTime),
            Some(Refusal::ExtendedBoundsOutsideHard)
        );
    }
}
