//! The search through all standard keys of a shape, and the first best of them.

#![tactic(auto)]

mod begun;
pub mod best;
mod judge;
pub mod visit;
pub mod walk;

ghost use Rattle.finding.specs.Listing.{ListingFact};

/// The keys of the walk are exactly the standard keys, in rising dictionary order.
pub fn all_standard_keys_are_listed()
    ensures { ListingFact }
{}
