//! The figures of a key: its tally and its resolution.

ghost use Rattle.std.specs.Prelude.{◌≡◌, ◌≤◌, length};
ghost use Rattle.theory.specs.Keys.{Words};
ghost use Rattle.theory.specs.Laws.{Resolves};
ghost use Rattle.theory.specs.Tallies.{tally, resolution};
ghost use Rattle.opening.specs.Shapes.{layers_of};
ghost use Rattle.figures.specs.Counted.{columns_in};
ghost use Rattle.key.specs.Questions.{columns_of};

use super::Key;
use figures::counts::Counts;
use opening::Shape;
use theory::tally::Tally;

/// The counts of these columns, placed one after another.
fn counted(shape: Shape, columns: &[u8]) -> Counts
    requires words { Words (layers_of shape) columns.now }
    requires few { length columns.now ≤ 10 }
    ensures shape { result.shape ≡ shape }
    ensures columns { columns_in result ≡ columns.now }
{
    columns
        .iter()
        .fold(Counts::new(shape), |counts, column| counts.place(*column))
}

impl Key {
    /// The figures by which rankings judge it.
    pub fn tally(&self) -> Tally
        ensures { result ≡ tally (layers_of self.now.shape) (columns_of self.now) }
    {
        let (last, front) = self.columns().split_last().unwrap();
        counted(self.shape, front).tally_with(*last).unwrap()
    }

    /// Its effects counted by alias and length.
    pub fn counts(&self) -> Counts
        ensures shape { result.shape ≡ self.now.shape }
        ensures columns { columns_in result ≡ columns_of self.now }
    {
        counted(self.shape, self.columns())
    }

    /// The least length of a defining word; none where there is no such word.
    pub fn resolution(&self) -> Option<u8>
        ensures answer { result ≡ resolution (columns_of self.now) }
        ensures least { Resolves (columns_of self.now) result }
    {
        self.counts().resolution()
    }
}
