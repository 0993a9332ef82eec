//! Why a call is refused. A refused call changes nothing.

ghost use Rattle.std.specs.Prelude.{◌≡◌};
ghost use Rattle.theory.specs.Refusals.{refusal_number};

/// The reasons for a refusal, in the order of their numbers.
#[derive(Clone, Copy, Debug, PartialEq, Eq, Hash)]
pub enum Refusal {
    /// There are not 1 to 4 whole-plot unit factors.
    WholePlotUnits = 1,
    /// There are not 1 to 4 subplot unit factors, or more than 5 unit factors in all.
    SubplotUnits = 2,
    /// There are not 1 to 9 whole-plot factors.
    WholePlotFactors = 3,
    /// There are not 1 to 9 subplot factors.
    SubplotFactors = 4,
    /// There are fewer factors than unit factors, or over five more.
    FactorCount = 5,
    /// The weight is not a fraction a/b with b from 1 to 1000 and a from 0 to b.
    WeightLimits = 6,
    /// There is no such kind of wish.
    WishKind = 11,
    /// The numbers of the wish are not as its kind asks.
    WishForm = 12,
    /// The wish stands already.
    WishStands = 13,
    /// Twelve wishes stand.
    WishesFull = 14,
    /// The wish does not stand.
    WishAbsent = 15,
    /// No sound key meets what is asked.
    NoKey = 21,
    /// No plan stands.
    NoPlan = 22,
    /// There is no such run.
    NoRun = 23,
    /// There is no such effect.
    NoEffect = 24,
    /// The buffer is too short for the answer.
    ShortBuffer = 25,
}

impl Refusal {
    /// The number that an answer names the refusal by.
    pub fn number(self) -> u8
        ensures { result ≡ refusal_number self }
    {
        self as u8
    }
}
