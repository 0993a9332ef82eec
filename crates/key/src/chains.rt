//! Chains: the effects with one alias.

ghost use Rattle.std.specs.Prelude.{◌≡◌, ◌^◌, ◌<◌, length};
ghost use Rattle.few.specs.Few.{items};
ghost use Rattle.theory.specs.Chains.{with_alias, chain};
ghost use Rattle.opening.specs.Shapes.{units_of};
ghost use Rattle.key.specs.Questions.{columns_of, chain_answer, filled};

use super::Key;
use super::filling::fill;
use few::Few;
use theory::refusal::Refusal;

impl Key {
    /// The effects with this alias, in rising number. No chain holds more than 2^5.
    fn members(&self, word: u8) -> Few<u16, 32>
        requires { word < 2 ^ units_of self.now.shape }
        ensures { items result ≡ with_alias (columns_of self.now) word }
    {
        let mut members = Few::new(0);
        // The effects are these numbers themselves, in no list that could be gone through.
        for effect in 0..self.shape.effects() {
            if self.word(effect) == word {
                members.push(effect).unwrap();
            }
        }
        members
    }

    /// Writes every effect of the effect's chain, in rising number, and tells how many there are.
    pub fn chain(&self, effect: u16, out: &mut [u16]) -> Result<usize, Refusal>
        ensures answer { result ≡ chain_answer self.now effect (length out.old) }
        ensures buffer { out.new ≡ filled result (chain (columns_of self.now) effect) out.old }
    {
        let word = self.known_word(effect)?;
        if out.len() < self.shape.chain_size() {
            return Err(Refusal::ShortBuffer);
        }
        fill(out, self.members(word).as_slice())
    }
}
