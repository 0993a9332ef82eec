//! How many unit factors and factors a trial has.

#![tactic(auto)]

ghost use Rattle.std.specs.Prelude.{◌≡◌, ◌+◌, ◌≤◌};

mod limits;

/// The numbers that are given for an opening: whole-plot and subplot unit factors, then whole-plot
/// and subplot factors.
#[derive(Clone, Copy, Debug, PartialEq, Eq, Hash)]
pub struct Numbers {
    pub w: u16,
    pub s: u16,
    pub n1: u16,
    pub n2: u16,
}

impl From<(u16, u16, u16, u16)> for Numbers {
    ghost from_gives = { λ numbers r. r ≡ record { w = numbers.0; s = numbers.1; n1 = numbers.2; n2 = numbers.3 } };

    fn from(numbers: (u16, u16, u16, u16)) -> Numbers {
        let (w, s, n1, n2) = numbers;
        Numbers { w, s, n1, n2 }
    }
}

/// The numbers that a trial is opened with, within their limits.
///
/// There are `w` whole-plot and `s` subplot unit factors, `n1` whole-plot and `n2` subplot factors.
#[derive(Clone, Copy, Debug, PartialEq, Eq, Hash)]
pub struct Shape {
    pub w: u8,
    pub s: u8,
    pub n1: u8,
    pub n2: u8,
    ghost units: { (1 ≤ w) × (w ≤ 4) × (1 ≤ s) × (s ≤ 4) × (w + s ≤ 5) },
    ghost factors: { (1 ≤ n1) × (n1 ≤ 9) × (1 ≤ n2) × (n2 ≤ 9) },
    ghost spare: { (w + s ≤ n1 + n2) × (n1 + n2 ≤ w + s + 5) },
}
