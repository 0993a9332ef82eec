//! No wish, one more wish, one wish less.

ghost use Rattle.std.specs.Prelude.{◌≡◌, [], ◌∷◌, ◌++◌};
ghost use Rattle.opening.specs.Shapes.{factors_of};
ghost use Rattle.wishes.specs.Lists.{without};
ghost use Rattle.wishes.specs.Standings.{wishes_in, adding, striking, Changed};

use super::Standing;
use crate::forming::is_formed;
use few::Few;
use opening::Shape;
use theory::refusal::Refusal;
use theory::wish::Wish;

impl Standing {
    /// No wish stands.
    pub fn new(shape: Shape) -> Standing
        ensures shape { result.shape ≡ shape }
        ensures wishes { wishes_in result ≡ [] }
    {
        Standing {
            shape,
            wishes: Few::new(Wish::Least(3)),
        }
    }

    /// Adds a wish after those that stand; refused, and nothing changed, where it is not formed,
    /// stands already, or twelve stand.
    #[tactic(auto, using(crate::proofs::Places::same_standing))]
    pub fn add(&mut self, wish: Wish) -> Result<(), Refusal>
        ensures answer { result ≡ adding (factors_of self.old.shape) (wishes_in self.old) wish }
        ensures after { Changed result self.old self.new (wishes_in self.old ++ wish ∷ []) }
    {
        if !is_formed(usize::from(self.shape.factors()), wish) {
            return Err(Refusal::WishForm);
        }
        if self.holds(wish) {
            return Err(Refusal::WishStands);
        }
        self.wishes.push(wish).map_err(|_| Refusal::WishesFull)
    }

    /// Strikes a wish; those after it move up. Refused, and nothing changed, where it does not stand.
    pub fn strike(&mut self, wish: Wish) -> Result<(), Refusal>
        ensures answer { result ≡ striking (wishes_in self.old) wish }
        ensures after { Changed result self.old self.new (without wish (wishes_in self.old)) }
    {
        let place = self.wishes().iter().position(|standing| *standing == wish);
        let index = place.ok_or(Refusal::WishAbsent)?;
        self.wishes.remove(index);
        Ok(())
    }
}
