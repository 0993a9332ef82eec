//! A sheet that is answered line by line.

use crate::stage::Stage;
use sheet::reader::Reader;

mod answering;

/// A lent sheet, and how far it was read and answered.
#[derive(Drop)]
pub struct Session<'a> {
    reader: Reader<'a>,
    stage: Stage,
}
