//! The lines of a sheet from the third on: `find`, `layout`, `chain e`.
ghost use Rattle.std.specs.Prelude.{◌≡◌};
ghost use Rattle.sheet.specs.Left.{read_of};
ghost use Rattle.lines.specs.Commands.{commands, no_words_left, only_effect};

use sheet::fault::LineFault;
use sheet::letters::Alphabet;
use sheet::reader::Line;
use sheet::token::Token;

/// What a line asks of the planner.
#[derive(Clone, Copy, Debug, PartialEq, Eq)]
pub enum Command {
    /// Find the best plan.
    Find,
    /// Lay out the standing plan.
    Layout,
    /// List the chain of an effect.
    Chain(u16),
}

/// Reads the words left in the line as a command, with a plan's letters.
pub fn read_command(mut line: Line<'_>, alphabet: Alphabet) -> Result<Command, LineFault>
    ensures { result ≡ read_of (commands alphabet) line.entry }
{
    let head = line.next().ok_or(line.count_fault())?;
    match head.bytes {
        b"find" => none_left(line).map(|()| Command::Find),
        b"layout" => none_left(line).map(|()| Command::Layout),
        b"chain" => one_effect(line, alphabet).map(Command::Chain),
        _ => Err(Token::Word(head).fault().into()),
    }
}

// Refuses a line that has words left.
fn none_left(mut line: Line<'_>) -> Result<(), LineFault>
    ensures { result ≡ read_of no_words_left line.entry }
{
    match line.next() {
        None => Ok(()),
        Some(_) => Err(line.count_fault()),
    }
}

// The effect that the one word left writes.
fn one_effect(mut line: Line<'_>, alphabet: Alphabet) -> Result<u16, LineFault>
    ensures { result ≡ read_of (only_effect alphabet) line.entry }
{
    // One word has to come and no other, which no single Option says.
    let (Some(group), None) = (line.next(), line.next()) else {
        return Err(line.count_fault());
    };
    Ok(Token::Letters(group).effect(alphabet)?)
}
