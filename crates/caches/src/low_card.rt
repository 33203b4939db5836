//! The cache for few buckets.
use crate::cached_sub_aggs::CachedSubAggs;
use crate::pairs::Pairs;

/// A cache that hands over by rising bucket number, all documents of a bucket in one go.
pub type LowCardSubAggCache<L> = CachedSubAggs<Pairs, L>;
