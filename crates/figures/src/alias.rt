//! The alias of an effect under columns.

ghost use Rattle.std.specs.Prelude.{◌≡◌};
ghost use Rattle.theory.specs.Words.{alias};

/// The product of the columns of the effect's factors: its alias.
pub fn product(columns: &[u8], effect: u16) -> u8
    ensures { result ≡ alias columns.now effect }
{
    let mut word = 0;
    // A shift by the factor's index would not do past the sixteenth column.
    let mut rest = effect;
    for column in columns {
        if rest % 2 == 1 {
            word ^= *column;
        }
        rest /= 2;
    }
    word
}
