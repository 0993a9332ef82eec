//! Rankings: which of two keys is the better one, by their tallies.

#![tactic(auto)]

pub mod aberration;
pub mod choice;
pub mod penalty;
pub mod pile;
pub mod ranking;
pub mod verdict;
pub mod weight;
