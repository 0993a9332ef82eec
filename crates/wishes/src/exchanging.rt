//! Effects and wishes with two factors exchanged.

ghost use Rattle.std.specs.Prelude.{◌≡◌, ◌<◌, ◌↔◌, IsSome, IfSome};
ghost use Rattle.exchange.specs.Exchanges.{wish_exchanged};
ghost use Rattle.opening.specs.Shapes.{factors_of, home_of};
ghost use Rattle.wishes.specs.Exchanging.{IsExchanged};

use opening::Shape;
use theory::wish::Wish;

/// Two factors, counted from 0, the first one before the second.
#[derive(Clone, Copy, Debug, PartialEq, Eq, Hash)]
pub(crate) struct Pair {
    first: u8,
    second: u8,
    ghost order: { first < second },
    ghost within: { second < 10 },
}

impl Pair {
    /// These two factors, where both are whole-plot or both subplot factors of the shape.
    pub(crate) fn alike(shape: Shape, first: u8, second: u8) -> Option<Pair>
        ensures some { IsSome result ↔ ((first < second) × (second < factors_of shape) × (home_of shape first ≡ home_of shape second)) }
        ensures pair { IfSome result (λ pair. (pair.first ≡ first) × (pair.second ≡ second)) }
    {
        let home = shape.home(usize::from(second))?;
        if first >= second || shape.home(usize::from(first)) != Some(home) {
            return None;
        }
        Some(Pair { first, second })
    }

    /// The effect with the two exchanged.
    fn exchanged_effect(self, effect: u16) -> u16
        ensures { IsExchanged self.first self.second effect result }
    {
        if (effect >> self.first) % 2 == (effect >> self.second) % 2 {
            return effect;
        }
        effect ^ (1 << self.first | 1 << self.second)
    }

    /// The wish with the two exchanged.
    #[tactic(auto, using(crate::proofs::Turning::exchanges))]
    pub(crate) fn exchanged(self, wish: Wish) -> Wish
        ensures { result ≡ wish_exchanged self.first self.second wish }
    {
        match wish {
            Wish::Clear(e) => Wish::Clear(self.exchanged_effect(e)),
            Wish::Apart(e, f) => {
                let e = self.exchanged_effect(e);
                let f = self.exchanged_effect(f);
                Wish::Apart(e.min(f), e.max(f))
            }
            Wish::Fine(e) => Wish::Fine(self.exchanged_effect(e)),
            Wish::Word(e) => Wish::Word(self.exchanged_effect(e)),
            Wish::Least(r) => Wish::Least(r),
        }
    }
}
