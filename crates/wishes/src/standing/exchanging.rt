//! Which factors the standing wishes do not tell apart.

ghost use Rattle.std.specs.Prelude.{◌↔◌, IsTrue};
ghost use Rattle.exchange.specs.Outdoing.{Exchangeable};
ghost use Rattle.opening.specs.Shapes.{homes_of};
ghost use Rattle.wishes.specs.Standings.{wishes_in};

use super::Standing;
use crate::exchanging::Pair;

impl Standing {
    /// Whether two factors, counted from 0, the first one before the second, may be exchanged: both are
    /// whole-plot or both subplot factors, and each standing wish with the two exchanged is a standing
    /// wish.
    pub fn may_exchange(&self, first: u8, second: u8) -> bool
        ensures { IsTrue result ↔ Exchangeable (homes_of self.now.shape) (wishes_in self.now) first second }
    {
        let Some(pair) = Pair::alike(self.shape, first, second) else {
            return false;
        };
        self.wishes()
            .iter()
            .all(|wish| self.holds(pair.exchanged(*wish)))
    }
}
