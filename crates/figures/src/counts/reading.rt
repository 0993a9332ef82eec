//! What is read off the counts.

ghost use Rattle.std.specs.Prelude.{◌≡◌, ◌<◌, ◌≤◌, [], ◌∷◌, ◌++◌, if◌then◌else◌, Some, None};
ghost use Rattle.theory.specs.Words.{alias};
ghost use Rattle.theory.specs.Tallies.{members, tally, resolution};
ghost use Rattle.opening.specs.Shapes.{layers_of};
ghost use Rattle.figures.specs.Counted.{columns_in, room_for};

use super::Counts;
use super::extension::Extension;
use crate::alias::product;
use opening::Shape;
use theory::tally::Tally;

impl Counts {
    /// What the columns are columns of.
    pub fn shape(&self) -> Shape
        ensures { result ≡ self.now.shape }
    {
        self.shape
    }

    /// The columns, in the order in which they were placed.
    pub fn columns(&self) -> &[u8]
        ensures { result.now ≡ columns_in self.now }
    {
        self.columns.as_slice()
    }

    /// The alias of an effect under the columns.
    pub fn alias(&self, effect: u16) -> u8
        ensures { result ≡ alias (columns_in self.now) effect }
    {
        product(self.columns(), effect)
    }

    /// How many effects of this length have this word as their alias.
    pub fn count(&self, word: u8, length: u8) -> u16
        ensures { result ≡ members (columns_in self.now) length word }
    {
        if word >= 32 || length >= 11 {
            return 0;
        }
        self.at(usize::from(word), usize::from(length))
    }

    /// The same, of a word and a length that the table has.
    pub(super) fn at(&self, word: usize, length: usize) -> u16
        requires word { word < 32 }
        requires length { length < 11 }
        ensures value { result ≡ members (columns_in self.now) length word }
        ensures small { result ≤ 1024 }
    {
        self.table[word][length]
    }

    /// The tally of the columns with one more; none where it has no room.
    pub fn tally_with(&self, column: u8) -> Option<Tally>
        ensures { result ≡ (if room_for self.now column then Some (tally (layers_of self.now.shape) (columns_in self.now ++ column ∷ [])) else None) }
    {
        Extension::new(self, column).map(|extension| extension.tally())
    }

    /// The least length of a defining word of the columns; none where there is no such word.
    pub fn resolution(&self) -> Option<u8>
        ensures { result ≡ resolution (columns_in self.now) }
    {
        (1..self.columns.len() as u8 + 1).find(|&length| self.count(0, length) != 0)
    }
}
