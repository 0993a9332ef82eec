//! Keys whose type says that they are sound, and the questions that one key answers.

#![tactic(auto)]

ghost use Rattle.few.specs.Few.{items};
ghost use Rattle.theory.specs.Keys.{Sound};
ghost use Rattle.opening.specs.Shapes.{layers_of, homes_of};

use few::Few;
use opening::Shape;

mod asking;
mod chains;
mod figuring;
mod filling;
mod layouts;
mod making;

/// A sound key: the column of each factor, in factor order.
///
/// `Key::new` is the one way to make a key, so whoever holds one need not test it.
#[derive(Clone, Copy)]
pub struct Key {
    shape: Shape,
    columns: Few<u8, 10>,
    ghost sound: { Sound (layers_of shape) (homes_of shape) (items columns) },
}
