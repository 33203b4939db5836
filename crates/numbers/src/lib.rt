//! Numbers: what the values of a column stand for, and whole numbers from floats.

#![tactic(auto)]

pub mod fast_field;
pub mod mapping;
pub mod order;
pub mod whole;
