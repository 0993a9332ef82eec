//! How far a sheet has come, and what its next line is answered.

ghost use Rattle.sheet.specs.Left.{read_of, words_left};
ghost use Rattle.lines.specs.Opens.{opens};
ghost use Rattle.lines.specs.Ranks.{ranks};
ghost use Rattle.lines.specs.Commands.{commands};
ghost use Rattle.answers.specs.Obeyed.{alphabet_of};
ghost use Rattle.answers.specs.Stepped.{Opened, Ranked, Ordered, Stepped};

use crate::desk::Desk;
use lines::command::read_command;
use lines::opening_line::read_opening;
use lines::ranking::{RankingName, read_ranking};
use opening::Shape;
use planner::planner::Planner;
use ranking::aberration::Aberration;
use sheet::fault::{LineFault, SheetFault};
use sheet::reader::Line;
use spelling::answer::Answer;

/// What the next line of a sheet is to be.
#[derive(Clone, Copy)]
pub enum Stage {
    /// The sheet is at fault as a whole, which its first answer tells.
    Unread(SheetFault),
    /// The line that opens a trial.
    Opening,
    /// The line that chooses a ranking.
    Ranking(Shape),
    /// An order.
    Orders(Desk),
    /// Nothing: no further line is read.
    Over,
}

/// Reads the opening line.
fn opened(line: Line<'_>) -> Result<(Answer, Stage), LineFault>
    ensures { Opened line.entry.number (read_of opens line.entry) result }
{
    let number = line.number();
    match Shape::try_from(read_opening(line)?) {
        Ok(shape) => Ok((Answer::Nothing, Stage::Ranking(shape))),
        Err(refusal) => Ok((Answer::Refused(refusal, number), Stage::Over)),
    }
}

/// Reads the line that chooses a ranking.
fn ranked(line: Line<'_>, shape: Shape) -> Result<(Answer, Stage), LineFault>
    ensures { Ranked shape (read_of ranks line.entry) result }
{
    match read_ranking(line)? {
        RankingName::Aberration => {
            let planner = Planner::of(shape, Aberration);
            Ok((Answer::Nothing, Stage::Orders(Desk { planner })))
        }
    }
}

/// Reads an order and obeys it.
fn ordered(line: Line<'_>, desk: Desk) -> Result<(Answer, Stage), LineFault>
    ensures { Ordered desk line.entry.number (read_of (commands (alphabet_of desk)) line.entry) result }
{
    let number = line.number();
    let command = read_command(line, desk.alphabet())?;
    let (answer, after) = desk.obey(command, number);
    Ok((answer, Stage::Orders(after)))
}

impl Stage {
    /// Reads a line at this stage: its answer and the stage after it, or its fault.
    pub fn read(self, line: Line<'_>) -> Result<(Answer, Stage), SheetFault>
        ensures { Stepped self line.entry.number (words_left line.entry) result }
    {
        match self {
            Stage::Opening => Ok(opened(line)?),
            Stage::Ranking(shape) => Ok(ranked(line, shape)?),
            Stage::Orders(desk) => Ok(ordered(line, desk)?),
            Stage::Unread(_) | Stage::Over => Ok((Answer::Nothing, self)),
        }
    }
}
