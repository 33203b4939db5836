//! What is asked of a histogram level.
use buckets::histogram::HistogramAggregation;

/// A column, and how its values are sorted into slots.
#[derive(Clone, Copy)]
pub struct HistogramRequest {
    pub column: u32,
    pub aggregation: HistogramAggregation,
}
