//! The bottom of a stack of collectors.

#![tactic(auto)]

pub mod metric_collector;
