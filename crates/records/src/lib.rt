//! The records that every part shares: column types, kinds of levels, refusals, faults and paths.

#![tactic(auto)]

pub mod column_type;
pub mod fault;
pub mod kind;
pub mod order;
pub mod path;
pub mod row;
