//! The seven questions of the standing plan. None changes the planner.

ghost use Rattle.std.specs.Prelude.{◌≡◌, Some, None, MatchResult};
ghost use Rattle.theory.specs.declared.refusal.Refusal.TheVariants.{NoPlan};
ghost use Rattle.planner.specs.Entries.{ask};
ghost use Rattle.planner.specs.Entries as asked;
ghost use Rattle.planner.specs.Histories.{Goes};

use super::Planner;
use key::Key;
use ranking::ranking::Ranking;
use theory::refusal::Refusal;
use theory::sign::Sign;
use theory::stratum::Stratum;
use theory::tally::Tally;

impl<R: Ranking> Planner<R> {
    /// The standing plan, of which the questions are asked; refused where none stands.
    pub fn standing_plan(&self) -> Result<&Key, Refusal>
        ensures { MatchResult result (λ plan. self.now.plan ≡ Some plan.now) (λ why. (self.now.plan ≡ None) × (why ≡ NoPlan)) }
    {
        self.plan.as_ref().ok_or(Refusal::NoPlan)
    }

    /// The column of each factor, and how many they are.
    pub fn key(&self, out: &mut [u8]) -> Result<usize, Refusal>
        ensures { Goes R.scored R.ranked self.now (ask (asked.key out.old result out.new)) self.now }
    {
        self.standing_plan()?.key(out)
    }

    /// The sign of an effect in a run.
    pub fn sign(&self, effect: u16, run: u8) -> Result<Sign, Refusal>
        ensures { Goes R.scored R.ranked self.now (ask (asked.sign effect run result)) self.now }
    {
        self.standing_plan()?.sign(effect, run)
    }

    /// The unit word of an effect and its stratum.
    pub fn alias(&self, effect: u16) -> Result<(u8, Stratum), Refusal>
        ensures { Goes R.scored R.ranked self.now (ask (asked.alias effect result)) self.now }
    {
        self.standing_plan()?.alias(effect)
    }

    /// The effects with the alias of this one, rising, and how many they are.
    pub fn chain(&self, effect: u16, out: &mut [u16]) -> Result<usize, Refusal>
        ensures { Goes R.scored R.ranked self.now (ask (asked.chain effect out.old result out.new)) self.now }
    {
        self.standing_plan()?.chain(effect, out)
    }

    /// The figures that rankings read.
    pub fn tally(&self) -> Result<Tally, Refusal>
        ensures { Goes R.scored R.ranked self.now (ask (asked.tally result)) self.now }
    {
        Ok(self.standing_plan()?.tally())
    }

    /// The least length of a defining word; none where there is no such word.
    pub fn resolution(&self) -> Result<Option<u8>, Refusal>
        ensures { Goes R.scored R.ranked self.now (ask (asked.resolution result)) self.now }
    {
        Ok(self.standing_plan()?.resolution())
    }

    /// The rows of the trial as text, and how long it is.
    pub fn layout(&self, out: &mut [u8]) -> Result<usize, Refusal>
        ensures { Goes R.scored R.ranked self.now (ask (asked.layout out.old result out.new)) self.now }
    {
        self.standing_plan()?.layout(out)
    }
}
