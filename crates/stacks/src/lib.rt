//! The types of whole stacks: levels over caches over levels, a bottom last.

#![tactic(auto)]

pub mod levels;
