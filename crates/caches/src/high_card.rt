//! The cache for many buckets.
use crate::cached_sub_aggs::CachedSubAggs;
use crate::partitions::Partitions;

/// A cache that keeps 16 partitions by bucket number modulo 16 and hands over one after another, each run of equal bucket
/// numbers in one go.
pub type HighCardSubAggCache<L> = CachedSubAggs<Partitions, L>;
