//! Strata: the layers of units.

ghost use Rattle.std.specs.Prelude.{◌≡◌};
ghost use Rattle.theory.specs.Strata.{stratum_number};

/// The topmost layer of which a unit word has a unit factor, and so the units between which effects
/// with that alias are compared.
#[derive(Clone, Copy, Debug, PartialEq, Eq, Hash)]
pub enum Stratum {
    /// The word has no unit factor: it is the mean.
    Mean = 0,
    WholePlots = 1,
    Subplots = 2,
}

impl Stratum {
    /// The layer, counted from 1; 0 for the mean.
    pub fn number(self) -> u8
        ensures { result ≡ stratum_number self }
    {
        self as u8
    }
}
