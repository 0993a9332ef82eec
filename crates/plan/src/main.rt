//! Reads an order sheet from standard input and writes its answers to standard output.

#![tactic(auto)]

ghost use Rattle.std.specs.Prelude.{◌≤◌, length, IfOk};

use answers::session::Session;
use sheet::form::MOST_BYTES;
use std::io;
use std::io::{Read, Write};

/// One byte more than a sheet may have, so that a longer one is seen to be too long.
const MOST: usize = MOST_BYTES + 1;

/// Reads standard input to its end, or until `sheet` is full, and tells how many bytes there are.
// Into a fixed place, so that no sheet is refused for want of memory.
fn read_sheet(rt: &HostRuntime, sheet: &mut [u8]) -> io::Result<usize>
    ensures { IfOk result (λ size. size ≤ length sheet.old) }
{
    let most = sheet.len();
    let mut room = sheet;
    io::copy(&mut rt.stdin().take(most as u64), &mut room)?;
    Ok(most.saturating_sub(room.len()))
}

/// Answers a sheet line by line.
fn answer_sheet(rt: &impl Print, sheet: &[u8]) -> io::Result<()> {
    let mut output = io::writer(rt);
    let mut buffer = [0; 1024];
    for answer in Session::new(sheet) {
        if let Ok(size) = answer.put(&mut buffer) {
            output.write_all(&buffer[..size])?;
        }
    }
    Ok(())
}

fn main(rt: HostRuntime) -> io::Result<()> {
    let mut sheet = [0; MOST];
    let size = read_sheet(&rt, &mut sheet)?;
    answer_sheet(&rt, &sheet[..size])
}
