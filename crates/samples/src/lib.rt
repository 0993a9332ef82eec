//! The worked samples of the definitions, as one theorem.

#![tactic(auto)]

ghost use Rattle.samples.specs.Samples.{SampleFact};

/// What the definitions say of three small trials: their standard keys, and of these the defining
/// words, tally, aliases, twins, and the wishes that they meet. The contract is a theorem; calling
/// it does nothing.
pub fn samples_hold()
    ensures { SampleFact }
{}
