//! The planner: an opened trial with its wishes and its standing plan.

#![tactic(auto)]

pub mod effect;
pub mod planner;
