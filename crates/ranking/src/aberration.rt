//! Aberration: few short defining words, the shortest first.

ghost use Rattle.ranking.specs.Aberrations.{shortest, fewest};
ghost use Rattle.ranking.specs.OrdersLemmas.{fewest_order};

use crate::ranking::Ranking;
use crate::verdict::Verdict;
use theory::tally::Tally;

/// At the first length from 3 to 6 of which two keys have unlike numbers of defining words, fewer
/// is better. Where there is no such length they are level.
#[derive(Clone, Copy)]
pub struct Aberration;

/// The numbers of defining words of length 3 to 6. Their order is that of the first length at which
/// they are unlike.
#[derive(Clone, Copy, Debug, Default, PartialEq, Eq, PartialOrd, Ord, Hash)]
pub struct WordCounts {
    pub a3: u16,
    pub a4: u16,
    pub a5: u16,
    pub a6: u16,
}

impl Ranking for Aberration {
    type Score = WordCounts;

    ghost scored = { λ _. shortest };

    ghost ranked = { λ _. fewest };

    ghost order = { λ _. fewest_order };

    fn score(&self, tally: &Tally) -> WordCounts {
        WordCounts {
            a3: tally.a3,
            a4: tally.a4,
            a5: tally.a5,
            a6: tally.a6,
        }
    }

    fn compare(&self, first: &WordCounts, second: &WordCounts) -> Verdict {
        Verdict::of_fewer(first, second)
    }
}
