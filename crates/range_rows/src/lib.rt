//! The table of a range level.

#![tactic(auto)]

pub mod making;
pub mod request;
pub mod row_table;
pub mod table;
