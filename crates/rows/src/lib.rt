//! The interface of a level's table of rows, and the counts that each table keeps.

#![tactic(auto)]

pub mod counting;
pub mod counts;
pub mod table;
