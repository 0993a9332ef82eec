//! No column, and one column more.

ghost use Rattle.std.specs.Prelude.{◌≡◌, [], ◌∷◌, ◌++◌, if◌then◌else◌};
ghost use Rattle.figures.specs.Counted.{columns_in, room_for};

use super::Counts;
use super::extension::Extension;
use few::Few;
use opening::Shape;

impl Counts {
    /// The counts of no column: the mean alone.
    pub fn new(shape: Shape) -> Counts
        ensures shape { result.shape ≡ shape }
        ensures columns { columns_in result ≡ [] }
    {
        let mut table = [[0; 11]; 32];
        table[0][0] = 1;
        Counts {
            shape,
            columns: Few::new(0),
            table,
        }
    }

    /// Whether one more column can be placed: there are fewer than ten, and it is a unit word.
    pub fn has_room(&self, column: u8) -> bool
        ensures { result ≡ room_for self.now column }
    {
        !self.columns.is_full() && self.shape.has_word(column)
    }

    /// The same with one more column; unchanged where it has no room.
    pub fn place(&self, column: u8) -> Counts
        ensures shape { result.shape ≡ self.now.shape }
        ensures columns { columns_in result ≡ (if room_for self.now column then columns_in self.now ++ column ∷ [] else columns_in self.now) }
    {
        let mut counts = *self;
        if let Some(extension) = Extension::new(self, column) {
            extension.add_to(&mut counts);
        }
        counts
    }
}
