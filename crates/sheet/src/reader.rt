//! The reader of a sheet and the lines that it gives. Their methods stand in `walk`.
ghost use Rattle.std.specs.Prelude.{◌≤◌, length};

pub mod walk;

/// Walks over the lines of a lent sheet.
#[derive(Drop)]
pub struct Reader<'a> {
    sheet: &'a [u8],
    at: usize,
    line: usize,
    ghost within: { at ≤ length sheet.now },
    ghost counted: { line ≤ at },
}

/// Walks over the words of one line.
#[derive(Drop)]
pub struct Line<'a> {
    bytes: &'a [u8],
    // Where the next word begins: its column needs the index, so the rest is not kept instead.
    at: usize,
    number: usize,
}
