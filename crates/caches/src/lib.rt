//! The two caches between a level and the level below it.

#![tactic(auto)]

mod buffer;
mod cached_sub_aggs;
pub mod high_card;
pub mod low_card;
mod pairs;
mod partitions;
mod sorting;
