//! What the lines of an order sheet say.

#![tactic(auto)]

pub mod command;
pub mod opening_line;
pub mod ranking;
