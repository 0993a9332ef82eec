//! The text of an answer. It is put together piece by piece, since of a `Display` no contract says that it
//! succeeds where there is room.

ghost use Rattle.std.specs.Prelude.{◌≡◌, [], ◌+◌, ◌*◌, ◌<◌, ◌≤◌, ◌++◌, length};
ghost use Rattle.few.specs.Few.{items};
ghost use Rattle.key.specs.Questions.{columns_of, layout_of};
ghost use Rattle.spelling.specs.Spelled.{column_text, columns_text, plan_text, effect_text, effects_text, refused_text, fault_text, answer_text, Put};

use super::{Answer, Effects};
use few::Few;
use key::Key;
use sheet::fault::SheetFault;
use sheet::letters::{add_letters, letter};
use text::{add_bytes, add_number};
use theory::refusal::Refusal;

/// Room for the text of any answer.
pub const ROOM: usize = 1024;

/// The text of an answer.
pub type Text = Few<u8, ROOM>;

/// Adds a factor's letter and its column.
// Of the numbers of factors `n1` alone tells letters apart, so it comes without the other.
fn put_column(text: &mut Text, n1: u8, factor: u8, column: u8)
    requires { length (items text.old) + 6 ≤ ROOM }
    ensures { items text.new ≡ items text.old ++ column_text n1 factor column }
{
    add_bytes(text, b" ");
    add_bytes(text, &[letter(n1, factor), b'=']);
    add_number(text, usize::from(column));
}

/// Adds the letter and the column of each factor.
fn put_columns(text: &mut Text, n1: u8, columns: &[u8])
    requires few { length columns.now ≤ 10 }
    requires room { length (items text.old) + 60 ≤ ROOM }
    ensures { items text.new ≡ items text.old ++ columns_text n1 columns.now }
{
    for (factor, column) in columns.iter().enumerate() {
        put_column(text, n1, factor as u8, *column);
    }
}

/// Begins a text with `key` and each factor's column.
fn put_plan(text: &mut Text, key: &Key)
    requires { items text.old ≡ [] }
    ensures { items text.new ≡ plan_text key.now.shape.n1 (columns_of key.now) }
{
    add_bytes(text, b"key");
    put_columns(text, key.shape().n1, key.columns());
    add_bytes(text, b"\n");
}

/// Begins a text with the rows of a plan.
fn put_rows(text: &mut Text, key: &Key)
    requires { items text.old ≡ [] }
    ensures { items text.new ≡ layout_of key.now }
{
    add_bytes(text, key.rows().as_slice());
}

/// Adds an effect as letters, with a space before it unless it is the first.
fn put_effect(text: &mut Text, n1: u8, place: usize, effect: u16)
    requires { length (items text.old) + 17 ≤ ROOM }
    ensures { items text.new ≡ items text.old ++ effect_text n1 place effect }
{
    if place > 0 {
        add_bytes(text, b" ");
    }
    add_letters(text, n1, effect);
}

/// Begins a text with effects as letters, with spaces between them.
fn put_chain(text: &mut Text, effects: &Effects)
    requires { items text.old ≡ [] }
    ensures { items text.new ≡ effects_text effects.now.n1 (items effects.now.list) }
{
    for (place, effect) in effects.list.as_slice().iter().enumerate() {
        put_effect(text, effects.n1, place, *effect);
    }
    add_bytes(text, b"\n");
}

/// Begins a text with `no`, the refusal's number, `line` and the line.
fn put_refused(text: &mut Text, refusal: Refusal, line: usize)
    requires { items text.old ≡ [] }
    ensures { items text.new ≡ refused_text refusal line }
{
    add_bytes(text, b"no ");
    add_number(text, usize::from(refusal.number()));
    add_bytes(text, b" line ");
    add_number(text, line);
    add_bytes(text, b"\n");
}

/// Begins a text with `bad`, the fault's number, `line`, the line, `column` and the column.
fn put_fault(text: &mut Text, fault: SheetFault)
    requires { items text.old ≡ [] }
    ensures { items text.new ≡ fault_text fault }
{
    let place = fault.place();
    add_bytes(text, b"bad ");
    add_number(text, usize::from(fault.number()));
    add_bytes(text, b" line ");
    add_number(text, place.line);
    add_bytes(text, b" column ");
    add_number(text, place.column);
    add_bytes(text, b"\n");
}

impl Answer {
    /// Begins a text with the answer's. A text of 1,024 bytes is passed on, since each copy of it costs more than
    /// most answers do.
    fn put_text(&self, text: &mut Text)
        requires { items text.old ≡ [] }
        ensures { items text.new ≡ answer_text self.now }
    {
        match self {
            Answer::Nothing => {}
            Answer::Plan(key) => put_plan(text, key),
            Answer::Rows(key) => put_rows(text, key),
            Answer::Chain(effects) => put_chain(text, effects),
            Answer::Refused(refusal, line) => put_refused(text, *refusal, *line),
            Answer::Fault(fault) => put_fault(text, *fault),
        }
    }

    /// The text of the answer.
    pub fn text(self) -> Text
        ensures { items result ≡ answer_text self }
    {
        let mut text = Few::new(0);
        self.put_text(&mut text);
        text
    }

    /// Writes the text of the answer at the start of a buffer, and tells its length.
    ///
    /// A buffer of fewer than 1,024 bytes is refused and left as it was, whatever the answer.
    pub fn put(self, out: &mut [u8]) -> Result<usize, Refusal>
        ensures { Put self out.old result out.new }
    {
        if out.len() < ROOM {
            return Err(Refusal::ShortBuffer);
        }
        // Of these there is no text to put together.
        match self {
            Answer::Nothing => return Ok(0),
            Answer::Rows(key) => return key.layout(out),
            _ => {}
        }
        let mut text = Few::new(0);
        self.put_text(&mut text);
        let bytes = text.as_slice();
        out[..bytes.len()].copy_from_slice(bytes);
        Ok(bytes.len())
    }
}
