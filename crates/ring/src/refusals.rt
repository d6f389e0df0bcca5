// Why a call declines, and 01's number and place for each reason.
ghost use Rattle.std.specs.Prelude.{◌≡◌, Some};
ghost use Rattle.ring.specs.Judging.{number_of, place_of};
ghost use Rattle.ring.specs.Told.{verdict_of};
ghost use Rattle.ring.specs.Printed.{refusal_text, not_compared_text};

use std::error::Error;
use std::fmt;

// `WrongLetter` holds the first position that has no letter of the kind; `NoRoom` is a table or a room of too few entries; `NoKey` is said of
// letters judged as a key that no ring has.
#[derive(Clone, Copy, Debug, PartialEq, Eq)]
pub enum Refusal {
    NoLetters,
    TooManyLetters,
    WrongLetter(usize),
    NoRoom,
    UnknownKind,
    NoKey,
}

impl Refusal {
    // The number in 01's table.
    pub fn number(self) -> u8
        ensures { result ≡ number_of (verdict_of self) }
    {
        match self {
            Refusal::NoLetters => 1,
            Refusal::TooManyLetters => 2,
            Refusal::WrongLetter(_) => 3,
            Refusal::NoRoom => 4,
            Refusal::UnknownKind => 6,
            Refusal::NoKey => 7,
        }
    }

    // The place of a wrong letter, 0 for every other reason.
    pub fn place(self) -> usize
        ensures { result ≡ place_of (verdict_of self) }
    {
        match self {
            Refusal::WrongLetter(at) => at,
            _ => 0,
        }
    }
}

// The number, and a text for people, of this crate's own cases.
impl fmt::Display for Refusal {
    ghost output = { λ e. Some (refusal_text e) };

    fn fmt<W: fmt::Write>(&self, f: &mut fmt::Formatter<W>) -> fmt::Result {
        write!(f, "{}: ", self.number())?;
        match self {
            Refusal::NoLetters => f.write_str("no letters"),
            Refusal::TooManyLetters => f.write_str("more letters than a ring has"),
            Refusal::WrongLetter(at) => write!(f, "no letter of the kind at {at}"),
            Refusal::NoRoom => f.write_str("a table or a room with too few entries"),
            Refusal::UnknownKind => f.write_str("a kind that is none"),
            Refusal::NoKey => f.write_str("no ring has this key"),
        }
    }
}

impl Error for Refusal {}

// Why two rings are not compared: the first is refused, or the second is.
#[derive(Clone, Copy, Debug, PartialEq, Eq)]
pub enum NotCompared {
    First(Refusal),
    Second(Refusal),
}

impl fmt::Display for NotCompared {
    ghost output = { λ e. Some (not_compared_text e) };

    fn fmt<W: fmt::Write>(&self, f: &mut fmt::Formatter<W>) -> fmt::Result {
        match self {
            NotCompared::First(refusal) => write!(f, "the first ring: {refusal}"),
            NotCompared::Second(refusal) => write!(f, "the second ring: {refusal}"),
        }
    }
}

impl Error for NotCompared {}
