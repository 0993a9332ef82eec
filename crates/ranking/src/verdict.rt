//! What a ranking says of two scores.

ghost use Rattle.std.specs.Prelude.{◌≡◌};
ghost use Rattle.ranking.specs.Verdicts.{verdict_of, first_decisive};

use std::cmp::Ordering;

/// How the first of two scores stands to the second.
// Beside `Ordering` by a rule of the project: 'better' is not 'less', and verdicts may grow.
#[derive(Clone, Copy, Debug, PartialEq, Eq, Hash)]
pub enum Verdict {
    Better,
    Level,
    Worse,
}

/// Less is better.
impl From<Ordering> for Verdict {
    ghost from_gives = { λ order verdict. verdict ≡ verdict_of order };

    fn from(order: Ordering) -> Verdict {
        match order {
            Ordering::Less => Verdict::Better,
            Ordering::Equal => Verdict::Level,
            Ordering::Greater => Verdict::Worse,
        }
    }
}

impl Verdict {
    /// The verdict where the smaller is better.
    pub fn of_fewer<T: Ord + Copy>(first: T, second: T) -> Verdict
        ensures { result ≡ verdict_of (T.cmp first second) }
    {
        first.cmp(&second).into()
    }

    /// This verdict, or `next` where this one is level.
    pub fn then(self, next: Verdict) -> Verdict
        ensures { result ≡ first_decisive self next }
    {
        match self {
            Verdict::Level => next,
            decided => decided,
        }
    }
}
