// Why a sheet or a book is refused, and 01's number and place for each reason.
ghost use Rattle.std.specs.Prelude.{◌≡◌, Some};
ghost use Rattle.sheet.specs.Told.{number_told, place_told, of_ring};
ghost use Rattle.sheet.specs.Printed.{refusal_text};

use std::error::Error;
use std::fmt;

// One case for each number, and no case that holds a ring's refusal: two refusals of one number would be told alike.
// `WrongLetter` holds the first position, counted from the sheet's first letter, that has no letter of the kind. `Torn` is said of fewer
// bytes than a trailer or than it points back over, `WrongMarks` of a wrong tag, a kind that is none or a strand that its kind has not, and
// `NotMade` of letters and marks that the writer makes for no deposit.
#[derive(Clone, Copy, Debug, PartialEq, Eq)]
pub enum Refusal {
    NoLetters,
    TooManyLetters,
    WrongLetter(usize),
    NoRoom,
    Torn,
    WrongMarks,
    NotMade,
}

impl Refusal {
    // The number in 01's table.
    pub fn number(self) -> u8
        ensures { result ≡ number_told self }
    {
        match self {
            Refusal::NoLetters => 1,
            Refusal::TooManyLetters => 2,
            Refusal::WrongLetter(_) => 3,
            Refusal::NoRoom => 4,
            Refusal::Torn => 5,
            Refusal::WrongMarks => 6,
            Refusal::NotMade => 7,
        }
    }

    // The place of a wrong letter, 0 for every other reason.
    pub fn place(self) -> usize
        ensures { result ≡ place_told self }
    {
        match self {
            Refusal::WrongLetter(at) => at,
            _ => 0,
        }
    }
}

// A kind that is none is one of a sheet's wrong marks.
impl From<ring::Refusal> for Refusal {
    ghost from_gives = { λ e r. r ≡ of_ring e };

    fn from(e: ring::Refusal) -> Refusal {
        match e {
            ring::Refusal::NoLetters => Refusal::NoLetters,
            ring::Refusal::TooManyLetters => Refusal::TooManyLetters,
            ring::Refusal::WrongLetter(at) => Refusal::WrongLetter(at),
            ring::Refusal::NoRoom => Refusal::NoRoom,
            ring::Refusal::UnknownKind => Refusal::WrongMarks,
            ring::Refusal::NoKey => Refusal::NotMade,
        }
    }
}

// The number, and a text for people, of this crate's own cases.
impl fmt::Display for Refusal {
    ghost output = { λ e. Some (refusal_text e) };

    fn fmt<W: fmt::Write>(&self, f: &mut fmt::Formatter<W>) -> fmt::Result {
        write!(f, "{}: ", self.number())?;
        match self {
            Refusal::NoLetters => f.write_str("no letters"),
            Refusal::TooManyLetters => f.write_str("more letters than a ring has"),
            Refusal::WrongLetter(at) => write!(f, "no letter of the kind at {at}"),
            Refusal::NoRoom => f.write_str("a room with too few bytes"),
            Refusal::Torn => f.write_str("fewer bytes than a sheet has"),
            Refusal::WrongMarks => f.write_str("a wrong tag, kind or strand"),
            Refusal::NotMade => f.write_str("no deposit has this sheet"),
        }
    }
}

impl Error for Refusal {}
