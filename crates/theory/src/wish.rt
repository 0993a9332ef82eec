//! What the crew may ask of a plan.

/// A wish, by its kind. Effects are numbers whose bits are factors.
#[derive(Clone, Copy, Debug, PartialEq, Eq, Hash)]
pub enum Wish {
    /// This interaction is clear: its chain holds no main effect and no other interaction.
    Clear(u16),
    /// These two effects have different aliases.
    Apart(u16, u16),
    /// This effect is of the subplot stratum.
    Fine(u16),
    /// This effect is a defining word.
    Word(u16),
    /// No defining word is shorter than this.
    Least(u16),
}
