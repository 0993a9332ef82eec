//! Weight: many interactions apart from the main effects, a whole-plot one counting a fraction.

ghost use Rattle.std.specs.Prelude.{◌≡◌, MatchResult};
ghost use Rattle.theory.specs.declared.refusal.Refusal.TheVariants.{WeightLimits};
ghost use Rattle.ranking.specs.Fractions.{Fraction};
ghost use Rattle.ranking.specs.Weights.{worth, worthier};
ghost use Rattle.ranking.specs.OrdersLemmas.{worthier_order};

use crate::ranking::Ranking;
use crate::verdict::Verdict;
use std::cmp::Reverse;
use theory::refusal::Refusal;
use theory::tally::Tally;

/// The larger a·M1 + b·M2 is better, and where these are equal the smaller a²·Q1 + b²·Q2.
///
/// M1, M2, Q1 and Q2 are figures of the tally. A whole-plot interaction counts a/b of a subplot
/// one. b is from 1 to 1000, and a from 0 to b.
#[derive(Clone, Copy)]
pub struct Weight {
    a: u16,
    b: u16,
    ghost limits: { Fraction a b },
}

/// What a tally is worth at a weight a/b.
#[derive(Clone, Copy, Debug, Default, PartialEq, Eq, Hash)]
pub struct Worth {
    /// a·M1 + b·M2
    pub sum: u64,
    /// a²·Q1 + b²·Q2
    pub squares: u64,
}

impl Weight {
    /// The weight a/b. Refused with `WeightLimits` unless b is from 1 to 1000 and a from 0 to b.
    pub fn new(a: u16, b: u16) -> Result<Weight, Refusal>
        ensures { MatchResult result (λ w. Fraction a b × (w.a ≡ a) × (w.b ≡ b)) (λ e. (Fraction a b → ⊥) × (e ≡ WeightLimits)) }
    {
        if !(1..=1000).contains(&b) || a > b {
            return Err(Refusal::WeightLimits);
        }
        Ok(Weight { a, b })
    }
}

impl Ranking for Weight {
    type Score = Worth;

    ghost scored = { λ w. worth w.a w.b };

    ghost ranked = { λ _. worthier };

    ghost order = { λ _. worthier_order };

    fn score(&self, tally: &Tally) -> Worth {
        let (a, b) = (u64::from(self.a), u64::from(self.b));
        Worth {
            sum: a * u64::from(tally.m1) + b * u64::from(tally.m2),
            squares: a * a * u64::from(tally.q1) + b * b * u64::from(tally.q2),
        }
    }

    fn compare(&self, first: &Worth, second: &Worth) -> Verdict {
        let key = |worth: &Worth| (Reverse(worth.sum), worth.squares);
        Verdict::of_fewer(key(first), key(second))
    }
}
