//! The place that a planner has: its ranking, the standing wishes, the standing plan.

ghost use Rattle.std.specs.Prelude.{◌≡◌};
ghost use Rattle.opening.specs.Shapes.{factors_of};
ghost use Rattle.planner.specs.Plans.{factors_or};

use key::Key;
use std::alloc::AllocError;
use wishes::standing::Standing;

mod asking;
mod beginning;
mod changing;

/// A trial that was opened with one ranking, the wishes that stand, and the plan if one stands.
#[derive(Copy, Drop)]
pub struct Planner<R> {
    ranking: R,
    standing: Standing,
    plan: Option<Key>,
    ghost fits: { factors_or (factors_of standing.shape) plan ≡ factors_of standing.shape },
}

// By hand: a generic struct with a ghost field derives `Copy`, but no `Clone`.
impl<R: Copy> Clone for Planner<R> {
    ghost is_clone = { λ planner copy. copy ≡ planner };

    ghost is_infallible = { λ _. Unit {0} };

    fn clone(&self) -> Result<Planner<R>, AllocError> {
        Ok(*self)
    }
}
