//! A ranking of our own: as many interactions as can be in chains without a main effect.

ghost use Rattle.std.specs.Prelude.{◌+◌};
ghost use Rattle.ranking.specs.Verdicts.{fewer, first_decisive};
ghost use Rattle.ranking.specs.OrdersLemmas.{fewer_order, reversed, through, piled};

use ranking::ranking::Ranking;
use ranking::verdict::Verdict;
use theory::tally::Tally;

/// More interactions whose chain holds no main effect are better; where they are as many, fewer
/// defining words of length 3.
#[derive(Clone, Copy)]
pub struct MostFree;

impl Ranking for MostFree {
    type Score = (u32, u32);

    ghost scored = { λ _ tally. (tally.m1 + tally.m2, tally.a3) };

    ghost ranked = { λ _ first second. first_decisive (fewer second.0 first.0) (fewer first.1 second.1) };

    ghost order = { λ _. piled (through (λ pair. pair.0) (reversed fewer_order)) (through (λ pair. pair.1) fewer_order) };

    fn score(&self, tally: &Tally) -> (u32, u32) {
        (
            u32::from(tally.m1) + u32::from(tally.m2),
            u32::from(tally.a3),
        )
    }

    fn compare(&self, first: &(u32, u32), second: &(u32, u32)) -> Verdict {
        Verdict::of_fewer(second.0, first.0).then(Verdict::of_fewer(first.1, second.1))
    }
}
