//! The walk over lines and words.
ghost use Rattle.std.specs.Prelude.{◌≡◌, ◌≤◌, length};
ghost use Rattle.std.specs.Iterator.{item_count};
ghost use Rattle.sheet.specs.Cuts.{length_up_to, lines, numbered, WordsStand, LinesStand};
ghost use Rattle.sheet.specs.Left.{lines_left, words_left, GivesLine, GivesWord};

use super::{Line, Reader};
use crate::fault::{LineFault, Place};
use crate::token::Part;

/// Cutting a line at every space loses nothing, and no word holds a space.
pub fn words_stand()
    ensures { WordsStand }
{}

/// Cutting a well formed sheet into its lines loses nothing, and no line holds a line feed.
pub fn lines_stand()
    ensures { LinesStand }
{}

// How many bytes come before the first `b`.
fn up_to(s: &[u8], b: u8) -> usize
    ensures value { result ≡ length_up_to b s.now }
    ensures within { result ≤ length s.now }
{
    s.iter().take_while(|x| **x != b).count()
}

impl<'a> Reader<'a> {
    /// A reader at the start of a sheet.
    pub fn new(sheet: &'a [u8]) -> Reader<'a>
        ensures lines { lines_left result ≡ numbered 1 (lines sheet.now) }
        ensures sheet { result.sheet.now ≡ sheet.now }
        ensures line { result.line ≡ 0 }
    {
        Reader {
            sheet,
            at: 0,
            line: 0,
        }
    }
}

impl<'a> Iterator for Reader<'a> {
    type Item = Line<'a>;

    ghost next_gives = { GivesLine };

    ghost remaining = { item_count lines_left };

    /// The next line, which ends before the next line feed, or `None` past the last.
    fn next(&mut self) -> Option<Line<'a>> {
        if self.at >= self.sheet.len() {
            return None;
        }
        let rest = &self.sheet[self.at..];
        let n = up_to(rest, b'\n');
        // The last line may lack its line feed.
        self.at = (self.at + n + 1).min(self.sheet.len());
        self.line += 1;
        Some(Line {
            bytes: &rest[..n],
            at: 0,
            number: self.line,
        })
    }
}

impl<'a> Line<'a> {
    /// The line's number in the sheet, from 1.
    pub fn number(&self) -> usize
        ensures { result ≡ self.now.number }
    {
        self.number
    }

    /// The fault of a line that has more words than it should, or fewer.
    pub fn count_fault(&self) -> LineFault
        ensures { result ≡ LineFault.Count self.now.number }
    {
        LineFault::Count { line: self.number }
    }
}

impl<'a> Iterator for Line<'a> {
    type Item = Part<'a>;

    ghost next_gives = { GivesWord };

    ghost remaining = { item_count words_left };

    /// The next word, which ends before the next space, or `None` past the last.
    fn next(&mut self) -> Option<Part<'a>> {
        let rest = self.bytes.get(self.at..)?;
        let n = up_to(rest, b' ');
        let word = Part {
            bytes: &rest[..n],
            place: Place {
                line: self.number,
                column: self.at + 1,
            },
        };
        self.at += n + 1;
        Some(word)
    }
}
