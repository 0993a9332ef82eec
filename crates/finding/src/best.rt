//! The first best standard key of a shape that meets the standing wishes.

ghost use Rattle.std.specs.Prelude.{◌≡◌, IfSome};
ghost use Rattle.key.specs.Questions.{columns_of};
ghost use Rattle.wishes.specs.Standings.{wishes_in};
ghost use Rattle.finding.specs.Best.{by_tally, Finding, Wished, FindingSound};

use crate::judge::first_best_columns;
use key::Key;
use ranking::ranking::Ranking;
use wishes::standing::Standing;

/// The first best standard key that meets the standing wishes; none where no standard key does.
///
/// No standard key that meets them ranks better, and each other one that is level with it comes later
/// in dictionary order of columns. It is a best one of all sound keys that meet them too, and where
/// none is found, no sound key meets them.
pub fn first_best<R: Ranking>(ranking: &R, standing: &Standing) -> Option<Key>
    ensures shape { IfSome result (λ key. key.shape ≡ standing.now.shape) }
    ensures found { Finding columns_of (Wished standing.now.shape (wishes_in standing.now)) (by_tally standing.now.shape (R.scored ranking.now) (R.ranked ranking.now)) result }
    ensures sound { FindingSound columns_of standing.now.shape (wishes_in standing.now) (by_tally standing.now.shape (R.scored ranking.now) (R.ranked ranking.now)) result }
{
    let best = first_best_columns(ranking, standing)?;
    Key::new(standing.shape(), best.columns())
}
