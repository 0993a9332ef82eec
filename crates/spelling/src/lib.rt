//! How answers are spelled.

#![tactic(auto)]

pub mod answer;
