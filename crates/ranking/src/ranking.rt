//! What every ranking can do, and the law that it keeps.

ghost use Rattle.std.specs.Prelude.{◌≡◌};
ghost use Rattle.theory.specs.declared.tally.Tally.{Tally};
ghost use Rattle.ranking.specs.declared.verdict.Verdict.{Verdict};
ghost use Rattle.ranking.specs.Orders.{Order};

use crate::verdict::Verdict;
use theory::tally::Tally;

/// A ranking turns a tally into a score of its own kind, and says of two scores which is better.
///
/// Its meaning is the order `ranked` of its scores. `order` is the law of order: a score is level
/// with itself, exchanging two scores exchanges better and worse, and what is not worse than a
/// second, which is not worse than a third, is not worse than the third.
pub trait Ranking {
    /// What the ranking reads of a tally.
    type Score: Copy;

    ghost scored: { Self → Tally → Self.Score };

    ghost ranked: { Self → Self.Score → Self.Score → Verdict };

    /// The score of a tally.
    fn score(&self, tally: &Tally) -> Self::Score
        ensures { result ≡ scored self.now tally.now };

    /// How the first score stands to the second.
    fn compare(&self, first: &Self::Score, second: &Self::Score) -> Verdict
        ensures { result ≡ ranked self.now first.now second.now };

    ghost order: { (r : Self) → Order (ranked r) };
}
