//! The model of a stack of collectors, and the interfaces of its levels and caches.

#![tactic(auto)]

pub mod cache;
pub mod level;
pub mod model;
