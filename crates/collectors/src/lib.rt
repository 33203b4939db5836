//! Levels with rows: a table of rows above a cache.

#![tactic(auto)]

pub mod bucket_collector;
pub mod deliver;
