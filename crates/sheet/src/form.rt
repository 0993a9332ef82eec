//! The form of a whole sheet.
ghost use Rattle.std.specs.Prelude.{◌≡◌};
ghost use Rattle.sheet.specs.Forms.{form_check};

use crate::fault::SheetFault;

/// The most bytes that a sheet may have.
pub const MOST_BYTES: usize = 4096;

/// Refuses a sheet of more than 4,096 bytes, and one with a line that does not end with a line feed.
pub fn check_form(sheet: &[u8]) -> Result<(), SheetFault>
    ensures { result ≡ form_check sheet.now }
{
    if sheet.len() <= MOST_BYTES && sheet.last().is_none_or(|end| *end == b'\n') {
        Ok(())
    } else {
        Err(SheetFault::Form)
    }
}
