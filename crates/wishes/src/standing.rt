//! The wishes that stand.

ghost use Rattle.std.specs.Prelude.{◌≡◌, ◌≤◌, true, length};
ghost use Rattle.few.specs.Few.{items};
ghost use Rattle.opening.specs.Shapes.{factors_of};
ghost use Rattle.wishes.specs.Lists.{all_formed, distinct};

use few::Few;
use opening::Shape;
use theory::wish::Wish;

mod changing;
mod exchanging;
mod reading;

/// How many wishes can stand.
pub const LIMIT: usize = 12;

/// The wishes that were added to a trial and not struck since: at most twelve, each formed for the
/// trial's factors and none twice.
#[derive(Clone, Copy)]
pub struct Standing {
    shape: Shape,
    wishes: Few<Wish, LIMIT>,
    ghost few: { length (items wishes) ≤ 12 },
    ghost formed: { all_formed (factors_of shape) (items wishes) ≡ true },
    ghost once: { distinct (items wishes) ≡ true },
}
