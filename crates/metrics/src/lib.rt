//! Tallies: what is kept of the values that are counted into a bucket.

#![tactic(auto)]

pub mod exact;
pub mod extremes;
mod float_bits;
pub mod joinable;
pub mod number;
pub mod stats;
pub mod tally;
