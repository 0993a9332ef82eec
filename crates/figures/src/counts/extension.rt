//! Counts with one column more.

ghost use Rattle.std.specs.Prelude.{◌≡◌, ◌+◌, ◌^◌, ◌<◌, ◌≤◌, ◌↔◌, true, IsSome, IfSome};
ghost use Rattle.figures.specs.Counted.{columns_in, room_for};

use super::Counts;
use std::ops::Range;
use theory::tally::Tally;

/// Counts, and a column that they have room for.
///
/// With it an effect leaves the new factor out, or it is an old one with the factor: one longer, and
/// its alias is the product with the column.
#[derive(Clone, Copy)]
pub(super) struct Extension<'a> {
    counts: &'a Counts,
    column: u8,
    ghost room: { room_for counts.now column ≡ true },
}

impl<'a> Extension<'a> {
    ghost use Rattle.theory.specs.Tallies.{members, sum_to, tally};
    ghost use Rattle.opening.specs.Shapes.{layers_of, units_of};
    ghost use Rattle.figures.specs.Counted.{unmixed, unmixed_square};
    ghost use Rattle.figures.specs.Rows.{row_of};
    ghost use Rattle.figures.specs.Extended.{all_columns};

    /// The counts and the column; none where they have no room for it.
    pub(super) fn new(counts: &'a Counts, column: u8) -> Option<Extension<'a>>
        ensures some { IsSome result ↔ room_for counts.now column ≡ true }
        ensures parts { IfSome result (λ extension. (extension.counts.now ≡ counts.now) × (extension.column ≡ column)) }
    {
        if counts.has_room(column) {
            Some(Extension { counts, column })
        } else {
            None
        }
    }

    /// How many effects of this length have this word as their alias.
    fn at(&self, word: usize, length: usize) -> u16
        requires word { word < 32 }
        requires length { length < 11 }
        ensures { result ≡ members (all_columns self.now) length word }
    {
        let without = self.counts.at(word, length);
        if length == 0 {
            return without;
        }
        without + self.counts.at(word ^ usize::from(self.column), length - 1)
    }

    /// Adds to a row of the counts, which has the effects without the new factor, those with it.
    fn extend(&self, word: usize, row: &mut [u16; 11])
        requires word { word < 32 }
        requires without { row.old ≡ row_of (columns_in self.now.counts.now) word }
        ensures { row.new ≡ row_of (all_columns self.now) word }
    {
        let other = &self.counts.table[word ^ usize::from(self.column)];
        for length in 1..11 {
            row[length] += other[length - 1];
        }
    }

    /// How many effects of each length have this word as their alias.
    fn row(&self, word: usize) -> [u16; 11]
        requires { word < 32 }
        ensures { result ≡ row_of (all_columns self.now) word }
    {
        let mut row = self.counts.table[word];
        self.extend(word, &mut row);
        row
    }

    /// Over the words whose chain holds no main effect: how many interactions the chains hold, and the
    /// sum of the squares of these numbers.
    fn unmixed_pairs(&self, words: Range<usize>) -> (u16, u16)
        requires rising { words.start ≤ words.end }
        requires words { words.end ≤ 2 ^ units_of self.now.counts.now.shape }
        ensures sum { sum_to (unmixed (all_columns self.now)) words.start + result.0 ≡ sum_to (unmixed (all_columns self.now)) words.end }
        ensures squares { sum_to (unmixed_square (all_columns self.now)) words.start + result.1 ≡ sum_to (unmixed_square (all_columns self.now)) words.end }
    {
        let mut sum = 0;
        let mut squares = 0;
        for word in words {
            if self.at(word, 1) == 0 {
                let pairs = self.at(word, 2);
                sum += pairs;
                squares += pairs * pairs;
            }
        }
        (sum, squares)
    }

    /// The tally of the columns.
    pub(super) fn tally(&self) -> Tally
        ensures { result ≡ tally (layers_of self.now.counts.now.shape) (all_columns self.now) }
    {
        let [_, _, _, a3, a4, a5, a6, a7, a8, a9, a10] = self.row(0);
        let plots = usize::from(self.counts.shape.plots());
        let runs = usize::from(self.counts.shape.runs());
        let (m1, q1) = self.unmixed_pairs(1..plots);
        let (m2, q2) = self.unmixed_pairs(plots..runs);
        Tally {
            a3,
            a4,
            a5,
            a6,
            a7,
            a8,
            a9,
            a10,
            m1,
            m2,
            q1,
            q2,
        }
    }

    /// Adds the column to a copy of the counts.
    pub(super) fn add_to(&self, counts: &mut Counts)
        requires { counts.old ≡ self.now.counts.now }
        ensures shape { counts.new.shape ≡ self.now.counts.now.shape }
        ensures columns { columns_in counts.new ≡ all_columns self.now }
    {
        counts.columns.push(self.column).unwrap();
        for (word, row) in counts.table.iter_mut().enumerate() {
            self.extend(word, row);
        }
    }
}
