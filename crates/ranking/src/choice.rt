//! Choice: a ranking that is picked while the program runs.

ghost use Rattle.std.specs.Prelude.{◌≡◌};
ghost use Rattle.ranking.specs.Chosen.{as_words, as_worth, as_sum, as_pair, chosen_score, chosen_verdict};
ghost use Rattle.ranking.specs.declared.choice.Choice.TheVariants.{Aberration, Weight, Penalty, Pile};
ghost use Rattle.ranking.specs.OrdersLemmas.{fewer_order, fewest_order, worthier_order, in_turn_order, through};

use crate::aberration::{Aberration, WordCounts};
use crate::penalty::Penalty;
use crate::pile::Pile;
use crate::ranking::Ranking;
use crate::verdict::Verdict;
use crate::weight::{Weight, Worth};
use theory::tally::Tally;

/// One of four rankings. It ranks as the ranking that it holds.
// An enum, since a `dyn Ranking` would need one type of score.
#[derive(Clone, Copy)]
pub enum Choice {
    Aberration(Aberration),
    Weight(Weight),
    Penalty(Penalty),
    Pile(Pile<Aberration, Weight>),
}

/// A score of one of the four rankings.
///
/// A ranking reads it by `From`, and a score of another kind as one of its own kind with zeros only,
/// since the law of order has to hold of any two scores.
#[derive(Clone, Copy)]
pub enum ChoiceScore {
    Words(WordCounts),
    Worth(Worth),
    Sum(u32),
    Pair((WordCounts, Worth)),
}

impl From<ChoiceScore> for WordCounts {
    ghost from_gives = { λ score words. words ≡ as_words score };

    fn from(score: ChoiceScore) -> WordCounts {
        match score {
            ChoiceScore::Words(words) => words,
            _ => WordCounts::default(),
        }
    }
}

impl From<ChoiceScore> for Worth {
    ghost from_gives = { λ score worth. worth ≡ as_worth score };

    fn from(score: ChoiceScore) -> Worth {
        match score {
            ChoiceScore::Worth(worth) => worth,
            _ => Worth::default(),
        }
    }
}

impl From<ChoiceScore> for u32 {
    ghost from_gives = { λ score sum. sum ≡ as_sum score };

    fn from(score: ChoiceScore) -> u32 {
        match score {
            ChoiceScore::Sum(sum) => sum,
            _ => 0,
        }
    }
}

impl From<ChoiceScore> for (WordCounts, Worth) {
    ghost from_gives = { λ score pair. pair ≡ as_pair score };

    fn from(score: ChoiceScore) -> (WordCounts, Worth) {
        match score {
            ChoiceScore::Pair(pair) => pair,
            _ => Default::default(),
        }
    }
}

impl Ranking for Choice {
    type Score = ChoiceScore;

    ghost scored = { chosen_score };

    ghost ranked = { chosen_verdict };

    ghost order = { elim [
      | Aberration _ ↦ through as_words fewest_order
      | Weight _ ↦ through as_worth worthier_order
      | Penalty _ ↦ through as_sum fewer_order
      | Pile _ ↦ through as_pair (in_turn_order fewest_order worthier_order)
    ] };

    fn score(&self, tally: &Tally) -> ChoiceScore {
        match self {
            Choice::Aberration(ranking) => ChoiceScore::Words(ranking.score(tally)),
            Choice::Weight(ranking) => ChoiceScore::Worth(ranking.score(tally)),
            Choice::Penalty(ranking) => ChoiceScore::Sum(ranking.score(tally)),
            Choice::Pile(ranking) => ChoiceScore::Pair(ranking.score(tally)),
        }
    }

    fn compare(&self, first: &ChoiceScore, second: &ChoiceScore) -> Verdict {
        let (first, second) = (*first, *second);
        match self {
            Choice::Aberration(ranking) => ranking.compare(&first.into(), &second.into()),
            Choice::Weight(ranking) => ranking.compare(&first.into(), &second.into()),
            Choice::Penalty(ranking) => ranking.compare(&first.into(), &second.into()),
            Choice::Pile(ranking) => ranking.compare(&first.into(), &second.into()),
        }
    }
}
