//! The walk through all standard keys of a shape, in dictionary order.

ghost use Rattle.std.specs.Prelude.{ℕ, List, ◌++◌};
ghost use Rattle.finding.specs.Walks.{keys_after, standard_keys};

use crate::begun::Begun;
use crate::visit::Visit;
use opening::Shape;

/// Hands the standard keys that begin with these columns to the visitor.
fn walk<V: Visit>(begun: &Begun, visitor: &mut V)
    ensures { (u : V) (keys : List (List ℕ)) → V.saw begun.now.counts.shape u keys visitor.old → V.saw begun.now.counts.shape u (keys ++ keys_after begun.now.counts begun.now.opened) visitor.new }
{
    if begun.is_late() || visitor.leave(&begun.counts) {
        return;
    }
    let shape = begun.counts.shape();
    // The unit words are these numbers themselves.
    for column in 0..shape.runs() {
        if let Some(opened) = begun.next(column) {
            if begun.left() > 1 {
                walk(&begun.place(column, opened), visitor);
            } else if opened.is_all(shape) {
                visitor.visit(&begun.counts, column);
            }
        }
    }
}

/// Hands every standard key of the shape to the visitor, in rising dictionary order.
pub fn visit_standard_keys<V: Visit>(shape: Shape, visitor: &mut V)
    ensures { (u : V) (keys : List (List ℕ)) → V.saw shape u keys visitor.old → V.saw shape u (keys ++ standard_keys shape) visitor.new }
{
    walk(&Begun::new(shape), visitor);
}
