//! Who takes the keys of a walk, one by one.

ghost use Rattle.std.specs.Prelude.{◌≡◌, ℕ, true, IsTrue, List, [], ◌∷◌, ◌++◌};
ghost use Rattle.opening.specs.declared.Shape.{Shape};
ghost use Rattle.figures.specs.Counted.{columns_in, room_for};
ghost use Rattle.finding.specs.Listing.{In, Begins};

use figures::counts::Counts;

/// Takes keys of one shape, one after another.
///
/// Its meaning is `saw`: `saw shape u keys v` says that u, once it has taken the keys of that shape,
/// may be v.
pub trait Visit: Sized {
    ghost saw: { Shape → Self → List (List ℕ) → Self → Type 0 };

    /// Takes the key that has the counted columns and this last one.
    fn visit(&mut self, counts: &Counts, column: u8)
        ensures { (u : Self) (keys : List (List ℕ)) → room_for counts.now column ≡ true → saw counts.now.shape u keys self.old → saw counts.now.shape u (keys ++ (columns_in counts.now ++ column ∷ []) ∷ []) self.new };

    /// Whether keys that begin with the counted columns would change nothing.
    fn leave(&self, counts: &Counts) -> bool
        ensures { IsTrue result → (u : Self) (keys more : List (List ℕ)) → ((key : List ℕ) → In key more → Begins (columns_in counts.now) key) → saw counts.now.shape u keys self.now → saw counts.now.shape u (keys ++ more) self.now }
    {
        false
    }
}
