//! Keeps the first best of the keys that it is shown and that meet the standing wishes.

ghost use Rattle.std.specs.Prelude.{◌≡◌, true, [], ◌∷◌, ◌++◌};
ghost use Rattle.opening.specs.Shapes.{layers_of};
ghost use Rattle.figures.specs.Counted.{columns_in, room_for};
ghost use Rattle.wishes.specs.Standings.{wishes_in};
ghost use Rattle.finding.specs.Best.{by_tally, Finding, Wished};
ghost use Rattle.finding.specs.Leading.{beats, KeepsPassing, PassesAll, Takes};

use crate::visit::Visit;
use crate::walk::visit_standard_keys;
use figures::counts::Counts;
use ranking::ranking::Ranking;
use ranking::verdict::Verdict;
use wishes::standing::Standing;

/// The columns of a key, with its score.
#[derive(Clone, Copy)]
pub struct Kept<S: Copy> {
    pub counts: Counts,
    pub score: S,
}

/// Compares each key by its ranking with the best so far, and takes it only where it fails no wish.
#[derive(Drop)]
pub struct Judge<'a, R: Ranking> {
    pub ranking: &'a R,
    pub standing: &'a Standing,
    pub best: Option<Kept<R::Score>>,
}

impl<'a, R: Ranking> Judge<'a, R> {
    /// Whether a score is better than that of the best so far, or there is none.
    fn is_beaten_by(&self, score: &R::Score) -> bool
        ensures { result ≡ beats (R.ranked self.now.ranking.now) self.now.best score.now }
    {
        self.best.as_ref().is_none_or(|kept| {
            self.ranking.compare(score, &kept.score) == Verdict::Better
        })
    }

    /// Takes the key of these columns and one more in place of the best so far, where it fails no wish.
    fn take(&mut self, counts: &Counts, column: u8, score: R::Score)
        ensures judge { (self.new.ranking.now ≡ self.old.ranking.now) × (self.new.standing.now ≡ self.old.standing.now) }
        ensures best { room_for counts.now column ≡ true → Takes (PassesAll (layers_of counts.now.shape) (wishes_in self.old.standing.now)) (columns_in counts.now ++ column ∷ []) score self.old.best self.new.best }
    {
        let key = counts.place(column);
        if !self.standing.any_fails(&key) {
            self.best = Some(Kept { counts: key, score });
        }
    }
}

impl<'a, R: Ranking> Visit for Judge<'a, R> {
    ghost saw = { λ shape u keys v. (v.ranking.now ≡ u.ranking.now) × (v.standing.now ≡ u.standing.now) × KeepsPassing shape (wishes_in u.standing.now) (R.scored u.ranking.now) (R.ranked u.ranking.now) keys v.best };

    /// The wishes are asked last, since few keys are better than the best so far. What few keys come to
    /// is done apart, so that no place for counts is cleared for the others.
    fn visit(&mut self, counts: &Counts, column: u8) {
        let Some(tally) = counts.tally_with(column) else {
            return;
        };
        let score = self.ranking.score(&tally);
        if self.is_beaten_by(&score) {
            self.take(counts, column, score);
        }
    }

    /// Keys that begin with columns that fail a wish fail it too.
    fn leave(&self, counts: &Counts) -> bool {
        self.standing.any_fails(counts)
    }
}

/// The columns of the first best standard key that meets the standing wishes; none where no standard
/// key does.
pub fn first_best_columns<'a, R: Ranking>(ranking: &'a R, standing: &'a Standing) -> Option<Counts>
    ensures { Finding columns_in (Wished standing.now.shape (wishes_in standing.now)) (by_tally standing.now.shape (R.scored ranking.now) (R.ranked ranking.now)) result }
{
    let mut judge = Judge {
        ranking,
        standing,
        best: None,
    };
    visit_standard_keys(standing.shape(), &mut judge);
    judge.best.map(|kept| kept.counts)
}
