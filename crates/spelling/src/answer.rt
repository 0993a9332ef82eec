//! What a line of a sheet is answered.

ghost use Rattle.std.specs.Prelude.{◌≤◌, length};
ghost use Rattle.few.specs.Few.{items};

use few::Few;
use key::Key;
use sheet::fault::SheetFault;
use theory::refusal::Refusal;

mod spelling;

/// Effects of a plan with `n1` whole-plot factors.
#[derive(Clone, Copy)]
pub struct Effects {
    pub n1: u8,
    pub list: Few<u16, 32>,
    ghost few: { length (items list) ≤ 32 },
}

/// The answer to a line.
#[derive(Clone, Copy)]
pub enum Answer {
    /// Nothing is printed.
    Nothing,
    /// This plan was found.
    Plan(Key),
    /// The rows of this plan.
    Rows(Key),
    /// These effects share a chain.
    Chain(Effects),
    /// The line with this number was refused.
    Refused(Refusal, usize),
    /// The text of the sheet is at fault.
    Fault(SheetFault),
}
