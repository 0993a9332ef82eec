//! The sign of an effect in a run.

/// One of the two levels at which a run sets an effect.
#[derive(Clone, Copy, Debug, PartialEq, Eq, Hash)]
pub enum Sign {
    Plus,
    Minus,
}
