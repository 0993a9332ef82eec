//! Pile: one ranking on another.

ghost use Rattle.ranking.specs.Piles.{both, in_turn};
ghost use Rattle.ranking.specs.OrdersLemmas.{in_turn_order};

use crate::ranking::Ranking;
use crate::verdict::Verdict;
use theory::tally::Tally;

/// The first ranking decides, and the second where the first says level.
///
/// Either of them may be a pile itself.
#[derive(Clone, Copy)]
pub struct Pile<A, B> {
    pub first: A,
    pub second: B,
}

impl<A: Ranking, B: Ranking> Ranking for Pile<A, B> {
    type Score = (A::Score, B::Score);

    ghost scored = { λ p. both (A.Ranking.scored p.first) (B.Ranking.scored p.second) };

    ghost ranked = { λ p. in_turn (A.Ranking.ranked p.first) (B.Ranking.ranked p.second) };

    ghost order = { λ p. in_turn_order (A.Ranking.order p.first) (B.Ranking.order p.second) };

    fn score(&self, tally: &Tally) -> (A::Score, B::Score) {
        (self.first.score(tally), self.second.score(tally))
    }

    fn compare(&self, first: &(A::Score, B::Score), second: &(A::Score, B::Score)) -> Verdict {
        match self.first.compare(&first.0, &second.0) {
            Verdict::Level => self.second.compare(&first.1, &second.1),
            decided => decided,
        }
    }
}
