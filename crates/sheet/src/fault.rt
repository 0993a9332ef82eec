//! Faults of words, of lines and of sheets. Each is carried whole into the next.
ghost use Rattle.std.specs.Prelude.{◌≡◌};
ghost use Rattle.sheet.specs.Faults.{fault_number, word_place, fault_place};
ghost use Rattle.sheet.specs.declared.fault.LineFault.TheVariants as lf;
ghost use Rattle.sheet.specs.declared.fault.SheetFault.TheVariants as sf;

/// Where in the sheet a word or a fault lies; both count from 1.
#[derive(Clone, Copy, Debug, PartialEq, Eq)]
pub struct Place {
    pub line: usize,
    pub column: usize,
}

/// What is wrong with a word, and where the word begins.
#[derive(Clone, Copy, Debug, PartialEq, Eq)]
pub enum WordFault {
    /// It is not the fixed word, or none of the fixed words, that its place asks for.
    Unknown(Place),
    /// It is no number.
    Number(Place),
    /// It is no letter group of this plan.
    Letters(Place),
}

/// What is wrong with a line.
#[derive(Clone, Copy, Debug, PartialEq, Eq)]
pub enum LineFault {
    Word(WordFault),
    /// It has more words than it should, or fewer.
    Count { line: usize },
}

/// What is wrong with a sheet.
#[derive(Clone, Copy, Debug, PartialEq, Eq)]
pub enum SheetFault {
    /// It is too long, or its last line has no line feed.
    Form,
    Line(LineFault),
}

impl From<WordFault> for LineFault {
    ghost from_gives = { λ e r. r ≡ lf.Word e };

    fn from(e: WordFault) -> LineFault {
        LineFault::Word(e)
    }
}

impl From<LineFault> for SheetFault {
    ghost from_gives = { λ e r. r ≡ sf.Line e };

    fn from(e: LineFault) -> SheetFault {
        SheetFault::Line(e)
    }
}

impl WordFault {
    /// Where the word begins.
    pub fn place(self) -> Place
        ensures { result ≡ word_place self }
    {
        match self {
            Self::Unknown(place) | Self::Number(place) | Self::Letters(place) => place,
        }
    }
}

impl SheetFault {
    /// The number that an answer names the fault by.
    pub fn number(self) -> u8
        ensures { result ≡ fault_number self }
    {
        // The numbers stand in one table, since a case that holds a place has none of its own.
        match self {
            SheetFault::Form => 31,
            SheetFault::Line(LineFault::Word(WordFault::Unknown(_))) => 32,
            SheetFault::Line(LineFault::Count { .. }) => 33,
            SheetFault::Line(LineFault::Word(WordFault::Number(_))) => 34,
            SheetFault::Line(LineFault::Word(WordFault::Letters(_))) => 35,
        }
    }

    /// Where the fault lies: where its word begins, else column 1 of its line, and line 1 for the
    /// whole sheet.
    pub fn place(self) -> Place
        ensures { result ≡ fault_place self }
    {
        match self {
            SheetFault::Form => Place { line: 1, column: 1 },
            SheetFault::Line(LineFault::Count { line }) => Place { line, column: 1 },
            SheetFault::Line(LineFault::Word(fault)) => fault.place(),
        }
    }
}
