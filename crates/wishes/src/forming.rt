//! Forms a wish of its kind and its numbers.

ghost use Rattle.std.specs.Prelude.{◌≡◌, ◌≤◌};
ghost use Rattle.theory.specs.Wishes.{low, formed};
ghost use Rattle.opening.specs.Shapes.{factors_of};
ghost use Rattle.wishes.specs.Forms.{naming, wishing, forming};

use opening::Shape;
use theory::refusal::Refusal;
use theory::wish::Wish;

/// A kind of wish, by its number.
#[derive(Clone, Copy, Debug, PartialEq, Eq, Hash)]
pub enum Kind {
    Clear = 1,
    Apart = 2,
    Fine = 3,
    Word = 4,
    Least = 5,
}

impl TryFrom<u16> for Kind {
    type Error = Refusal;

    ghost try_from_gives = { λ number r. r ≡ naming number };

    fn try_from(number: u16) -> Result<Kind, Refusal> {
        match number {
            1 => Ok(Kind::Clear),
            2 => Ok(Kind::Apart),
            3 => Ok(Kind::Fine),
            4 => Ok(Kind::Word),
            5 => Ok(Kind::Least),
            _ => Err(Refusal::WishKind),
        }
    }
}

/// The numbers that name a wish: its kind, and one or two more. The last is 0 except for apart.
#[derive(Clone, Copy, Debug, PartialEq, Eq, Hash)]
pub struct WishNumbers {
    /// A number as it was given: it may be that of no kind.
    pub kind: u16,
    pub e: u16,
    pub f: u16,
}

impl TryFrom<WishNumbers> for Wish {
    type Error = Refusal;

    ghost try_from_gives = { λ numbers r. r ≡ wishing numbers.kind numbers.e numbers.f };

    fn try_from(numbers: WishNumbers) -> Result<Wish, Refusal> {
        let WishNumbers { kind, e, f } = numbers;
        match (Kind::try_from(kind)?, f) {
            (Kind::Apart, _) => Ok(Wish::Apart(e, f)),
            (Kind::Clear, 0) => Ok(Wish::Clear(e)),
            (Kind::Fine, 0) => Ok(Wish::Fine(e)),
            (Kind::Word, 0) => Ok(Wish::Word(e)),
            (Kind::Least, 0) => Ok(Wish::Least(e)),
            _ => Err(Refusal::WishForm),
        }
    }
}

/// Whether this is a main effect or an interaction of `n` factors.
fn is_low(n: usize, e: u16) -> bool
    requires { n ≤ 10 }
    ensures { result ≡ low n e }
{
    e < 1 << n && (1..=2).contains(&e.count_ones())
}

/// Whether the numbers of a wish are as its kind asks, where there are `n` factors.
pub(crate) fn is_formed(n: usize, wish: Wish) -> bool
    requires { n ≤ 10 }
    ensures { result ≡ formed n wish }
{
    match wish {
        Wish::Clear(e) if e.count_ones() == 2 => e < 1 << n,
        Wish::Apart(e, f) if e < f => is_low(n, e) && is_low(n, f),
        Wish::Fine(e) => is_low(n, e),
        Wish::Word(e) if e.count_ones() >= 3 => e < 1 << n,
        Wish::Least(r) if (3..=10).contains(&r) => true,
        _ => false,
    }
}

/// The wish with these numbers; refused where there is no such kind, and then where the numbers are
/// not as the kind asks.
pub fn form(shape: Shape, numbers: WishNumbers) -> Result<Wish, Refusal>
    ensures { result ≡ forming (factors_of shape) numbers.kind numbers.e numbers.f }
{
    let wish = Wish::try_from(numbers)?;
    if !is_formed(usize::from(shape.factors()), wish) {
        return Err(Refusal::WishForm);
    }
    Ok(wish)
}
