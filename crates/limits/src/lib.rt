//! The allowance of rows: a plain counter, and a guard that charges it and takes everything back when it ends.

#![tactic(auto)]

pub mod agg_limits;
