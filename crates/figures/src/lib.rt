//! The figures of a key, counted column by column.

#![tactic(auto)]

pub mod alias;
pub mod counts;
