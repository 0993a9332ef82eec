//! The figures of a key by which rankings judge it.

/// What a ranking reads of a key.
///
/// `a3` to `a10` count its defining words by length. `m1` and `m2` count the interactions of
/// stratum 1 and 2 whose chain holds no main effect. `q1` and `q2` add, over those chains, the
/// square of the number of interactions in the chain.
#[derive(Clone, Copy, Debug, Default, PartialEq, Eq, Hash)]
pub struct Tally {
    pub a3: u16,
    pub a4: u16,
    pub a5: u16,
    pub a6: u16,
    pub a7: u16,
    pub a8: u16,
    pub a9: u16,
    pub a10: u16,
    pub m1: u16,
    pub m2: u16,
    pub q1: u16,
    pub q2: u16,
}
