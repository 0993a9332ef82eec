//! A place for a planner, and a trial opened there.

ghost use Rattle.std.specs.Prelude.{◌≡◌};
ghost use Rattle.planner.specs.Openings.{Begins, BeginsWith, Opened};

use super::Planner;
use key::Key;
use opening::{Numbers, Shape};
use ranking::ranking::Ranking;
use theory::refusal::Refusal;
use wishes::standing::Standing;

impl<R: Ranking> Planner<R> {
    /// A planner for a trial whose numbers were checked, without a wish and without a plan.
    pub fn of(shape: Shape, ranking: R) -> Planner<R>
        ensures { Begins R.scored R.ranked shape ranking result }
    {
        Planner {
            ranking,
            standing: Standing::new(shape),
            plan: None,
        }
    }

    /// A place as after opening 1 1 1 1 with this ranking.
    pub fn new(ranking: R) -> Planner<R>
        ensures { BeginsWith R.scored R.ranked 1 1 1 1 ranking result }
    {
        Planner::of(
            Shape {
                w: 1,
                s: 1,
                n1: 1,
                n2: 1,
            },
            ranking,
        )
    }

    /// The numbers of the trial.
    pub fn shape(&self) -> Shape
        ensures { result ≡ self.now.standing.shape }
    {
        self.standing.shape()
    }

    /// The standing plan.
    pub fn plan(&self) -> Option<Key>
        ensures { result ≡ self.now.plan }
    {
        self.plan
    }
}

impl<R: Ranking + Drop> Planner<R> {
    /// Opens a trial in this place with these numbers and this ranking: no wish and no plan stands.
    pub fn open(&mut self, numbers: Numbers, ranking: R) -> Result<(), Refusal>
        ensures { Opened R.scored R.ranked numbers.w numbers.s numbers.n1 numbers.n2 ranking result self.old self.new }
    {
        *self = Planner::of(Shape::try_from(numbers)?, ranking);
        Ok(())
    }
}
