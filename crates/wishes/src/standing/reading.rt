//! Which wishes stand, and whether columns fail one.

ghost use Rattle.std.specs.Prelude.{◌≡◌, All, IsTrue, MatchBool};
ghost use Rattle.opening.specs.Shapes.{layers_of};
ghost use Rattle.figures.specs.Counted.{columns_in};
ghost use Rattle.wishes.specs.Lists.{stands};
ghost use Rattle.wishes.specs.Standings.{wishes_in};
ghost use Rattle.wishes.specs.Tests.{Passes, SomeFails, AllMetByNone};

use super::Standing;
use crate::meeting::fails;
use figures::counts::Counts;
use opening::Shape;
use theory::wish::Wish;

impl Standing {
    /// The trial's numbers.
    pub fn shape(&self) -> Shape
        ensures { result ≡ self.now.shape }
    {
        self.shape
    }

    /// The wishes that stand, in the order in which they came.
    pub fn wishes(&self) -> &[Wish]
        ensures { result.now ≡ wishes_in self.now }
    {
        self.wishes.as_slice()
    }

    /// Whether this wish stands.
    pub fn holds(&self, wish: Wish) -> bool
        ensures { result ≡ stands (wishes_in self.now) wish }
    {
        self.wishes().contains(&wish)
    }

    /// Whether the columns fail some wish that stands. Then no key that begins with them meets all.
    ///
    /// On the columns of a whole key this is whether the key does not meet all wishes that stand.
    pub fn any_fails(&self, counts: &Counts) -> bool
        ensures test { MatchBool result (SomeFails (layers_of counts.now.shape) (columns_in counts.now) (wishes_in self.now)) (All (Passes (layers_of counts.now.shape) (columns_in counts.now)) (wishes_in self.now)) }
        ensures front { IsTrue result → AllMetByNone (layers_of counts.now.shape) (columns_in counts.now) (wishes_in self.now) }
    {
        self.wishes().iter().any(|wish| fails(counts, *wish))
    }
}
