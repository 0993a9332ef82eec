//! What keys mean, and the laws that everything above rests on.

#![tactic(auto)]

pub mod laws;
pub mod refusal;
pub mod sign;
pub mod stratum;
pub mod tally;
pub mod wish;
