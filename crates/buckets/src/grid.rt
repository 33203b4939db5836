//! The grid of a histogram: which slot a value lies in, and where a slot begins.
ghost use Rattle.std.specs.Prelude.{◌≡◌};
ghost use Rattle.buckets.specs.Grids.{slot_of, key_of, grid_of, counted, position_of, Rising, SoundIfAccepted, NanUncounted};

use crate::histogram::{HistogramAggregation, HistogramBounds};
use numbers::whole::floor_i64;
use records::column_type::ColumnType;
use std::num::nearest_i64_to_f64;

/// The slot of a number: floor((val − offset) / interval), each operation rounded once, made an i64 by the nearest one in
/// range. A NaN gives 0.
pub fn get_bucket_pos_f64(val: f64, interval: f64, offset: f64) -> i64
    ensures { result ≡ slot_of interval offset val }
{
    floor_i64((val - offset) / interval)
}

/// Where a slot begins: its position × interval + offset, each operation rounded once.
pub fn get_bucket_key_from_pos(bucket_pos: i64, interval: f64, offset: f64) -> f64
    ensures { result ≡ key_of interval offset bucket_pos }
{
    nearest_i64_to_f64(bucket_pos) * interval + offset
}

/// A histogram's grid in the column's unit.
// A type of its own: its numbers are in the column's unit, none is absent, and nothing is left to refuse.
#[derive(Clone, Copy)]
pub struct Grid {
    pub interval: f64,
    pub offset: f64,
    pub hard_bounds: Option<HistogramBounds>,
    pub extended_bounds: Option<HistogramBounds>,
    pub min_doc_count: u64,
}

impl Grid {
    /// The grid of a request on a column. It is of use if the request passes `validate`.
    pub fn new(req: &HistogramAggregation, field_type: ColumnType) -> Grid
        ensures { result ≡ grid_of field_type req.now }
    {
        let scaled = req.in_unit(field_type);
        Grid {
            interval: scaled.interval,
            offset: scaled.offset.unwrap_or(0.0),
            hard_bounds: scaled.hard_bounds,
            extended_bounds: scaled.extended_bounds,
            min_doc_count: scaled.min_doc_count,
        }
    }

    /// Whether a value is counted: within the hard bounds, ends included, or finite where there are none.
    pub fn counts(&self, val: f64) -> bool
        ensures { result ≡ counted self.now.hard_bounds val }
    {
        self.hard_bounds
            .map_or(val.is_finite(), |bounds| bounds.contains(val))
    }

    /// The slot of a counted value; none for one that is not counted.
    pub fn position(&self, val: f64) -> Option<i64>
        ensures { result ≡ position_of self.now val }
    {
        self.counts(val)
            .then(|| get_bucket_pos_f64(val, self.interval, self.offset))
    }

    /// Where a slot begins, from its position alone.
    pub fn key(&self, bucket_pos: i64) -> f64
        ensures { result ≡ key_of self.now.interval self.now.offset bucket_pos }
    {
        get_bucket_key_from_pos(bucket_pos, self.interval, self.offset)
    }
}

/// On a grid with a finite interval above 0 and a finite offset, a larger number is in no lower slot.
pub fn slots_rise_stands()
    ensures { Rising }
{}

/// A request that is not refused has a grid with a finite interval above 0, a finite offset and no NaN for a bound.
pub fn accepted_grid_stands()
    ensures { SoundIfAccepted }
{}

/// No grid counts a NaN.
pub fn nan_uncounted_stands()
    ensures { NanUncounted }
{}

#[cfg(test)]
mod tests {
    use super::*;

    #[test]
    fn slots(rt: HostRuntime) {
        assert_eq!(rt; get_bucket_pos_f64(9.5, 10.0, 0.0), 0);
        assert_eq!(rt; get_bucket_pos_f64(10.0, 10.0, 0.0), 1);
        assert_eq!(rt; get_bucket_pos_f64(-1.0, 10.0, 0.0), -1);
        assert_eq!(rt; get_bucket_pos_f64(-10.0, 10.0, 0.0), -1);
        assert_eq!(rt; get_bucket_pos_f64(4.0, 10.0, 5.0), -1);
        assert_eq!(rt; get_bucket_pos_f64(0.3, 0.1, 0.0), 2);
        assert_eq!(rt; get_bucket_key_from_pos(-1, 10.0, 5.0), -5.0);
    }
}
