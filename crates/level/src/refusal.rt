// Why a call refuses (RULES 4.3).

ghost use Rattle.std.specs.Prelude.{◌≡◌, Some};
ghost use Rattle.level.specs.Refusal.{number, place, refusal_text};

use std::error::Error;
use std::fmt;

// Places: minutes, segments, records and the entries of a summary are counted from 1, bytes from 0.
#[derive(Clone, Copy, Debug, PartialEq, Eq, Hash)]
pub enum Refusal {
    NoMinutes,
    TooManyMinutes,
    SampleBeyond { minute: usize },
    SmoothingBeyond,
    NoRoom,
    // of a level, or of a line as a whole, the segment is 0
    BadLength { segment: usize },
    // of a segment or of an entry of a summary; of a level it is 0
    TotalBeyond { at: usize },
    EqualLevels { segment: usize },
    NotOptimal { minute: usize },
    NoHeader,
    TooManySegments,
    BadField { byte: usize },
    NotInLine,
    Closed,
    FloorBeyond,
    BadStretch,
    BadRecord { record: usize },
    TooManySeries,
}

impl Refusal {
    // Its number in the table.
    pub fn number(self) -> u32
        ensures { result ≡ number self }
    {
        match self {
            Refusal::NoMinutes => 1,
            Refusal::TooManyMinutes => 2,
            Refusal::SampleBeyond { .. } => 3,
            Refusal::SmoothingBeyond => 4,
            Refusal::NoRoom => 5,
            Refusal::BadLength { .. } => 6,
            Refusal::TotalBeyond { .. } => 7,
            Refusal::EqualLevels { .. } => 8,
            Refusal::NotOptimal { .. } => 9,
            Refusal::NoHeader => 10,
            Refusal::TooManySegments => 11,
            Refusal::BadField { .. } => 12,
            Refusal::NotInLine => 13,
            Refusal::Closed => 14,
            Refusal::FloorBeyond => 15,
            Refusal::BadStretch => 16,
            Refusal::BadRecord { .. } => 17,
            Refusal::TooManySeries => 24,
        }
    }

    // Where it is, or 0 where the table names no place.
    pub fn place(self) -> usize
        ensures { result ≡ place self }
    {
        match self {
            Refusal::SampleBeyond { minute } => minute,
            Refusal::BadLength { segment } => segment,
            Refusal::TotalBeyond { at } => at,
            Refusal::EqualLevels { segment } => segment,
            Refusal::NotOptimal { minute } => minute,
            Refusal::TooManySegments => 4,
            Refusal::BadField { byte } => byte,
            Refusal::BadRecord { record } => record,
            _ => 0,
        }
    }
}

// As the programs print it: `refused`, number and place.
impl fmt::Display for Refusal {
    ghost output = { λ r. Some (refusal_text r) };

    fn fmt<W: fmt::Write>(&self, f: &mut fmt::Formatter<W>) -> fmt::Result {
        let number = self.number();
        let place = self.place();
        write!(f, "refused {number} {place}")
    }
}

impl Error for Refusal {}
