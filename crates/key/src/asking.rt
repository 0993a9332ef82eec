//! What a key says of an effect: its alias, its stratum, its sign.

ghost use Rattle.std.specs.Prelude.{◌≡◌, ◌^◌, ◌<◌, [], ◌∷◌, length, IfOk};
ghost use Rattle.theory.specs.Words.{sign};
ghost use Rattle.opening.specs.Shapes.{units_of, granted};
ghost use Rattle.key.specs.Questions.{columns_of, word_of, effect_check, alias_answer, sign_answer, SignLaws, key_answer, filled};

use super::Key;
use super::filling::fill;
use figures::alias::product;
use opening::Shape;
use theory::refusal::Refusal;
use theory::sign::Sign;
use theory::stratum::Stratum;

/// The sign in a run of every effect with this alias.
pub(super) fn sign_of(word: u8, run: u8) -> Sign
    ensures { result ≡ sign word run }
{
    if (word & run).count_ones() % 2 == 0 {
        Sign::Plus
    } else {
        Sign::Minus
    }
}

impl Key {
    /// The numbers that it was made for.
    pub fn shape(&self) -> Shape
        ensures { result ≡ self.now.shape }
    {
        self.shape
    }

    /// The column of each factor, in factor order.
    pub fn columns(&self) -> &[u8]
        ensures { result.now ≡ columns_of self.now }
    {
        self.columns.as_slice()
    }

    /// The alias of an effect.
    pub(super) fn word(&self, effect: u16) -> u8
        ensures { result ≡ word_of self.now effect }
    {
        product(self.columns(), effect)
    }

    /// The same, of a number that may be no effect's.
    pub(super) fn known_word(&self, effect: u16) -> Result<u8, Refusal>
        ensures answer { result ≡ granted (effect_check self.now effect ∷ []) (word_of self.now effect) }
        ensures word { IfOk result (λ word. (word ≡ word_of self.now effect) × (word < 2 ^ units_of self.now.shape)) }
    {
        if !self.shape.has_effect(effect) {
            return Err(Refusal::NoEffect);
        }
        Ok(self.word(effect))
    }

    /// The unit word of an effect, and its stratum.
    pub fn alias(&self, effect: u16) -> Result<(u8, Stratum), Refusal>
        ensures { result ≡ alias_answer self.now effect }
    {
        let word = self.known_word(effect)?;
        Ok((word, self.shape.stratum(word)))
    }

    /// The sign of an effect in a run.
    pub fn sign(&self, effect: u16, run: u8) -> Result<Sign, Refusal>
        ensures answer { result ≡ sign_answer self.now effect run }
        ensures laws { SignLaws self.now }
    {
        if !self.shape.has_word(run) {
            return Err(Refusal::NoRun);
        }
        Ok(sign_of(self.known_word(effect)?, run))
    }

    /// Writes the column of each factor, in factor order, and tells how many there are.
    pub fn key(&self, out: &mut [u8]) -> Result<usize, Refusal>
        ensures answer { result ≡ key_answer self.now (length out.old) }
        ensures buffer { out.new ≡ filled result (columns_of self.now) out.old }
    {
        fill(out, self.columns())
    }
}
