//! Penalty: each defining word costs, short ones more.

ghost use Rattle.ranking.specs.Penalties.{penalty};
ghost use Rattle.ranking.specs.OrdersLemmas.{fewer_order};
ghost use Rattle.ranking.specs.Verdicts.{fewer};

use crate::ranking::Ranking;
use crate::verdict::Verdict;
use theory::tally::Tally;

/// A defining word of length 3, 4, 5 or 6 costs 64, 16, 4 or 1, a longer one nothing. The smaller
/// cost is better.
#[derive(Clone, Copy)]
pub struct Penalty;

impl Ranking for Penalty {
    type Score = u32;

    ghost scored = { λ _. penalty };

    ghost ranked = { λ _. fewer };

    ghost order = { λ _. fewer_order };

    fn score(&self, tally: &Tally) -> u32 {
        64 * u32::from(tally.a3)
            + 16 * u32::from(tally.a4)
            + 4 * u32::from(tally.a5)
            + u32::from(tally.a6)
    }

    fn compare(&self, first: &u32, second: &u32) -> Verdict {
        Verdict::of_fewer(first, second)
    }
}
