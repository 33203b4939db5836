//! Readings of gauges as text, and times as dates.

#![tactic(auto)]

pub mod dates;
pub mod reading;
