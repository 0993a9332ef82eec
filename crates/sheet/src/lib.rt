//! The order sheet: its lines and words, numbers and letter groups, and its faults. No byte of the
//! sheet is copied.

#![tactic(auto)]

pub mod fault;
pub mod form;
pub mod letters;
pub mod numbers;
pub mod reader;
pub mod token;
