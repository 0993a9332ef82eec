//! Letters of factors, and letter groups of effects.
ghost use Rattle.std.specs.Prelude.{◌≡◌};
ghost use Rattle.few.specs.Few.{items};
ghost use Rattle.text.specs.Texts.{written, ended, added};
ghost use Rattle.sheet.specs.Letters.{factor, effect_of, letter_of, letters_of, LettersStand};

use few::Few;
use text::{add_bytes, put_bytes};

/// A letter group that was printed is read back as the same effect.
pub fn letters_stand()
    ensures { LettersStand }
{}

/// How many factors of each kind a plan has, which settles their letters.
#[derive(Clone, Copy, Debug, PartialEq, Eq)]
pub struct Alphabet {
    /// Whole-plot factors, lettered from A on.
    pub n1: u8,
    /// Subplot factors, lettered from p on.
    pub n2: u8,
}

impl Alphabet {
    // The factor that a letter stands for.
    fn factor_of(self, letter: u8) -> Option<u8>
        ensures { result ≡ factor self letter }
    {
        if self.n1 > 9 || self.n2 > 9 || self.n1 + self.n2 > 16 {
            return None;
        }
        let whole_plot = letter.checked_sub(b'A').filter(|factor| *factor < self.n1);
        let subplot = letter.checked_sub(b'p').filter(|factor| *factor < self.n2);
        whole_plot.or(subplot.map(|factor| self.n1 + factor))
    }

    /// The effect that a letter group writes: at least one letter, each of another factor, in
    /// factor order.
    pub fn effect(self, bytes: &[u8]) -> Option<u16>
        ensures { result ≡ effect_of self bytes.now }
    {
        if bytes.is_empty() {
            return None;
        }
        let mut next = 0u8;
        let mut effect = 0u16;
        for letter in bytes {
            let factor = self.factor_of(*letter)?;
            if factor < next {
                return None;
            }
            effect |= 1 << factor;
            next = factor + 1;
        }
        Some(effect)
    }
}

/// The letter of a factor: A and on for the `n1` whole-plot factors, p and on for the others.
/// Past the sixteenth factor, which no effect has, it is a question mark.
pub fn letter(n1: u8, factor: u8) -> u8
    ensures { result ≡ letter_of n1 factor }
{
    if factor >= 16 {
        // No number is refused a letter, so that the call cannot fail.
        b'?'
    } else if factor < n1 {
        b'A' + factor
    } else {
        b'p' + (factor - n1)
    }
}

/// Writes the letters of an effect's factors into `out` from `at` on, `0` for the mean, and tells where they end.
/// Where they do not fit, it changes nothing and tells `at`. Of the numbers of factors `n1` alone tells letters apart.
pub fn put_letters(out: &mut [u8], at: usize, n1: u8, effect: u16) -> usize
    ensures value { result ≡ ended out.old at (letters_of n1 effect) }
    ensures after { out.new ≡ written out.old at (letters_of n1 effect) }
{
    if effect == 0 {
        return put_bytes(out, at, b"0");
    }
    let mut group = [0u8; 16];
    let mut length = 0usize;
    let mut rest = effect;
    // The factors are the numbers themselves, in no list that could be gone through.
    for factor in 0..16u8 {
        if rest % 2 == 1 {
            group[length] = letter(n1, factor);
            length += 1;
        }
        rest /= 2;
    }
    put_bytes(out, at, &group[0..length])
}

/// Adds the letters of an effect's factors to a text, `0` for the mean; where they do not fit, it
/// changes nothing.
pub fn add_letters<const CAP: usize>(text: &mut Few<u8, CAP>, n1: u8, effect: u16)
    ensures { items text.new ≡ added CAP (items text.old) (letters_of n1 effect) }
{
    let mut group = [0; 16];
    let size = put_letters(&mut group, 0, n1, effect);
    add_bytes(text, &group[..size]);
}
