//! The second line of a sheet: `rank aberration`.
ghost use Rattle.std.specs.Prelude.{◌≡◌};
ghost use Rattle.sheet.specs.Left.{read_of};
ghost use Rattle.lines.specs.Ranks.{ranks};

use sheet::fault::LineFault;
use sheet::reader::Line;
use sheet::token::Token;

/// The ranking that a line names.
#[derive(Clone, Copy, Debug, PartialEq, Eq)]
pub enum RankingName {
    Aberration,
}

/// Reads the words left in the line as `rank` and a ranking.
pub fn read_ranking(mut line: Line<'_>) -> Result<RankingName, LineFault>
    ensures { result ≡ read_of ranks line.entry }
{
    let count = line.count_fault();
    let head = line.next().ok_or(count)?;
    Token::Word(head).fixed(b"rank")?;
    let name = line.next().ok_or(count)?;
    Token::Word(name).fixed(b"aberration")?;
    match line.next() {
        None => Ok(RankingName::Aberration),
        Some(more) => Err(Token::Word(more).fault().into()),
    }
}
