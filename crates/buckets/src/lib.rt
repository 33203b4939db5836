//! Tilings of range levels, grids of histogram levels, and the checks of their requests.

#![tactic(auto)]

pub mod cases;
pub mod grid;
pub mod histogram;
pub mod range;
pub mod tiles;
pub mod tiling;
