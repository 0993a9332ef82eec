//! Two factors of one layer exchanged, and what that leaves as it is.

#![tactic(auto)]

ghost use Rattle.exchange.specs.Outdoing.{ExchangeFact};

/// A standard key with two columns that may be exchanged, the later one smaller, is outdone where the
/// columns are read alike: with the two exchanged it is again a standard key, meets the same wishes,
/// has the same tally, and comes earlier.
pub fn falling_keys_are_outdone()
    ensures { ExchangeFact }
{}
