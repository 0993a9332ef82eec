//! The first columns of a key, with how many effects on them have each alias and length.

ghost use Rattle.std.specs.Prelude.{◌≡◌, ◌≤◌, length};
ghost use Rattle.few.specs.Few.{items};
ghost use Rattle.theory.specs.Keys.{Words};
ghost use Rattle.opening.specs.Shapes.{layers_of};
ghost use Rattle.figures.specs.Rows.{table_of};

use few::Few;
use opening::Shape;

mod extension;
mod growth;
mod reading;

/// Columns placed one after another, with the counts of their effects.
///
/// `table` has a row for each of the 32 words that there can be: how many effects of length 0 to 10
/// have that word as their alias. It is right by the type.
#[derive(Clone, Copy)]
pub struct Counts {
    shape: Shape,
    columns: Few<u8, 10>,
    table: [[u16; 11]; 32],
    ghost few: { length (items columns) ≤ 10 },
    ghost words: { Words (layers_of shape) (items columns) },
    ghost counted: { table ≡ table_of (items columns) },
}
