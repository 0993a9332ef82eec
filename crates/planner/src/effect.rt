//! What becomes of the standing plan when a wish is added or struck.

ghost use Rattle.std.specs.Prelude.{◌≡◌};
ghost use Rattle.planner.specs.Effects.{effect_number};

/// What a granted adding or striking says of the plan.
#[derive(Clone, Copy, Debug, PartialEq, Eq, Hash)]
pub enum Effect {
    /// No plan stood.
    NoPlan = 0,
    /// The plan meets the wish and stays.
    Stays = 1,
    /// The plan falls.
    Falls = 2,
}

impl Effect {
    /// The number that an answer names it by.
    pub fn number(self) -> u8
        ensures { result ≡ effect_number self }
    {
        self as u8
    }
}
