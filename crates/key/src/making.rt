//! Makes a key of columns that pass.

ghost use Rattle.std.specs.Prelude.{◌≡◌, ℕ, ◌^◌, ◌<◌, ◌↔◌, true, false, ◌||◌, length, IsTrue, bit_xor, slice_index_or};
ghost use Rattle.theory.specs.Keys.{Words, Own, Apart, Full, Sound};
ghost use Rattle.opening.specs.Shapes.{layers_of, homes_of, units_of, factors_of};
ghost use Rattle.key.specs.Questions.{Making};

use super::Key;
use few::Few;
use opening::Shape;
use std::array::from_fn;

/// Whether each column is a unit word in the layer of its factor.
fn placed(shape: Shape, columns: &[u8]) -> bool
    requires { length columns.now ≡ factors_of shape }
    ensures { IsTrue result ↔ Words (layers_of shape) columns.now × Own (layers_of shape) (homes_of shape) columns.now }
{
    columns.iter().enumerate().all(|(factor, &column)| {
        shape.has_word(column) && shape.home(factor) == Some(shape.stratum(column))
    })
}

/// Whether no two columns are equal.
fn apart(columns: &[u8]) -> bool
    ensures { IsTrue result ↔ Apart columns.now }
{
    columns
        .iter()
        .enumerate()
        .all(|(factor, column)| !columns[..factor].contains(column))
}

/// The marked words, and the products of a marked word and the column.
fn widened(seen: [bool; 32], column: u8) -> [bool; 32]
    requires { column < 32 }
    ensures { (u : ℕ) → u < 32 → slice_index_or result u false ≡ (slice_index_or seen u false || slice_index_or seen (bit_xor u column) false) }
{
    from_fn(|word| seen[word] || seen[word ^ usize::from(column)])
}

/// Whether every unit word is marked.
fn all_seen(shape: Shape, seen: [bool; 32]) -> bool
    ensures { IsTrue result ↔ ((v : ℕ) → v < 2 ^ units_of shape → slice_index_or seen v false ≡ true) }
{
    seen.iter()
        .take(usize::from(shape.runs()))
        .all(|mark| *mark)
}

/// Whether every unit word is the alias of an effect.
fn full(shape: Shape, columns: &[u8]) -> bool
    requires { Words (layers_of shape) columns.now }
    ensures { IsTrue result ↔ Full (layers_of shape) columns.now }
{
    let mut seen = [false; 32];
    seen[0] = true;
    for column in columns {
        seen = widened(seen, *column);
    }
    all_seen(shape, seen)
}

/// Whether the columns are a sound key of the shape.
// The shape and the columns are no struct: `Key::new` is given both, and it would be taken apart at once.
fn sound(shape: Shape, columns: &[u8]) -> bool
    ensures { IsTrue result ↔ Sound (layers_of shape) (homes_of shape) columns.now }
{
    columns.len() == usize::from(shape.factors())
        && placed(shape, columns)
        && apart(columns)
        && full(shape, columns)
}

impl Key {
    /// The key with these columns, where they are a sound key of the shape.
    pub fn new(shape: Shape, columns: &[u8]) -> Option<Key>
        ensures { Making shape columns.now result }
    {
        if !sound(shape, columns) {
            return None;
        }
        let mut places = Few::new(0);
        places.append(columns).unwrap();
        Some(Key {
            shape,
            columns: places,
        })
    }
}
