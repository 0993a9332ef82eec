//! The first line of a sheet: `open w s n1 n2`.
ghost use Rattle.std.specs.Prelude.{◌≡◌};
ghost use Rattle.sheet.specs.Left.{read_of};
ghost use Rattle.lines.specs.Opens.{opens};

use opening::Numbers;
use sheet::fault::LineFault;
use sheet::reader::Line;
use sheet::token::Token;

/// Reads the words left in the line as `open w s n1 n2`.
pub fn read_opening(mut line: Line<'_>) -> Result<Numbers, LineFault>
    ensures { result ≡ read_of opens line.entry }
{
    let count = line.count_fault();
    let head = line.next().ok_or(count)?;
    Token::Word(head).fixed(b"open")?;
    let words = (
        line.next(),
        line.next(),
        line.next(),
        line.next(),
        line.next(),
    );
    // Four words have to come and no fifth, which no single Option says.
    let (Some(w), Some(s), Some(n1), Some(n2), None) = words else {
        return Err(count);
    };
    Ok(Numbers {
        w: Token::Number(w).number()?,
        s: Token::Number(s).number()?,
        n1: Token::Number(n1).number()?,
        n2: Token::Number(n2).number()?,
    })
}
