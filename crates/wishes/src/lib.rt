//! What the crew asks of a plan: wishes formed, tested on columns, and those that stand.

#![tactic(auto)]

mod exchanging;
pub mod forming;
pub mod meeting;
pub mod standing;
