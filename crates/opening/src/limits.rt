//! Opens a shape, and reads its sums.

ghost use Rattle.std.specs.Prelude.{◌≡◌, ◌^◌, nat_lt, slice_index};
ghost use Rattle.std.specs.Option.{option_map_or};
ghost use Rattle.theory.specs.Words.{stratum};
ghost use Rattle.theory.specs.Strata.{stratum_number};
ghost use Rattle.opening.specs.Shapes.{Opening, layers_of, homes_of, units_of, factors_of, size_of_chain, stratum_in, home_of};

use super::{Numbers, Shape};
use theory::refusal::Refusal;
use theory::stratum::Stratum;

impl TryFrom<Numbers> for Shape {
    type Error = Refusal;

    ghost try_from_gives = { λ numbers r. Opening numbers.w numbers.s numbers.n1 numbers.n2 r };

    /// The shape with these numbers, or the refusal of the first check that they fail.
    fn try_from(numbers: Numbers) -> Result<Shape, Refusal> {
        let Numbers { w, s, n1, n2 } = numbers;
        if !(1..=4).contains(&w) {
            return Err(Refusal::WholePlotUnits);
        }
        if !(1..=4).contains(&s) || w + s > 5 {
            return Err(Refusal::SubplotUnits);
        }
        if !(1..=9).contains(&n1) {
            return Err(Refusal::WholePlotFactors);
        }
        if !(1..=9).contains(&n2) {
            return Err(Refusal::SubplotFactors);
        }
        if !(w + s..=w + s + 5).contains(&(n1 + n2)) {
            return Err(Refusal::FactorCount);
        }
        Ok(Shape {
            w: w as u8,
            s: s as u8,
            n1: n1 as u8,
            n2: n2 as u8,
        })
    }
}

impl Shape {
    /// How many unit factors there are.
    pub fn units(self) -> u8
        ensures { result ≡ units_of self }
    {
        self.w + self.s
    }

    /// How many factors there are.
    pub fn factors(self) -> u8
        ensures { result ≡ factors_of self }
    {
        self.n1 + self.n2
    }

    /// How many runs there are, which is how many unit words there are.
    pub fn runs(self) -> u8
        ensures { result ≡ 2 ^ units_of self }
    {
        1 << self.units()
    }

    /// How many whole plots there are.
    pub fn plots(self) -> u8
        ensures { result ≡ 2 ^ self.w }
    {
        1 << self.w
    }

    /// How many subplots each whole plot has.
    pub fn subplots(self) -> u8
        ensures { result ≡ 2 ^ self.s }
    {
        1 << self.s
    }

    /// How many effects there are.
    pub fn effects(self) -> u16
        ensures { result ≡ 2 ^ factors_of self }
    {
        1 << self.factors()
    }

    /// How many effects each chain of a sound key has.
    pub fn chain_size(self) -> usize
        ensures { result ≡ size_of_chain self }
    {
        1 << (self.factors() - self.units())
    }

    /// Whether this is a unit word. Runs are numbered as unit words are.
    pub fn has_word(self, word: u8) -> bool
        ensures { result ≡ nat_lt word (2 ^ units_of self) }
    {
        word < self.runs()
    }

    /// Whether there is an effect of this number.
    pub fn has_effect(self, effect: u16) -> bool
        ensures { result ≡ nat_lt effect (2 ^ factors_of self) }
    {
        effect < self.effects()
    }

    /// The stratum of a word.
    pub fn stratum(self, word: u8) -> Stratum
        ensures name { result ≡ stratum_in self word }
        ensures number { stratum_number result ≡ stratum (layers_of self) word }
    {
        if word == 0 {
            Stratum::Mean
        } else if word >> self.w == 0 {
            Stratum::WholePlots
        } else {
            Stratum::Subplots
        }
    }

    /// The layer of the factor with this index, from 0; none where there is no such factor.
    pub fn home(self, factor: usize) -> Option<Stratum>
        ensures name { result ≡ home_of self factor }
        ensures number { option_map_or stratum_number result 0 ≡ slice_index (homes_of self) factor }
    {
        if factor < usize::from(self.n1) {
            Some(Stratum::WholePlots)
        } else if factor < usize::from(self.factors()) {
            Some(Stratum::Subplots)
        } else {
            None
        }
    }
}
