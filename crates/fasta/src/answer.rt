// What the reader answers: a part of the text, a record that is read or refused, and both told in 01's numbers.
ghost use Rattle.std.specs.Prelude.{◌≡◌, Some};
ghost use Rattle.fasta.specs.Printed.{found_text, part_text, record_text, refusal_text, refused_text};
ghost use Rattle.fasta.specs.Told.{number_of_refusal, place_of_refusal, told_found, told_record};

use std::error::Error;
use std::fmt;

// A part of the lent text: where it begins, counted from the text's front, and how many bytes it has. No slice: C is told both, and the
// definitions speak of them; `header` and `rest` hand back the slices.
#[derive(Clone, Copy, Debug, PartialEq, Eq)]
pub struct Part {
    pub offset: usize,
    pub size: usize,
}

impl fmt::Display for Part {
    ghost output = { λ p. Some (part_text p) };

    fn fmt<W: fmt::Write>(&self, f: &mut fmt::Formatter<W>) -> fmt::Result {
        write!(f, "{} {}", self.offset, self.size)
    }
}

// Why no record is read, with the numbers of 02, which are not the ring's: 8 and no 6 or 7. `WrongLetter` holds the place, among the letters
// kept, of the first that is no base.
#[derive(Clone, Copy, Debug, PartialEq, Eq)]
pub enum Refusal {
    NoRecord,
    NoLetters,
    TooManyLetters,
    WrongLetter(usize),
    NoRoom,
}

impl Refusal {
    // The number in 01's table.
    pub fn number(self) -> u8
        ensures { result ≡ number_of_refusal self }
    {
        match self {
            Refusal::NoRecord => 8,
            Refusal::NoLetters => 1,
            Refusal::TooManyLetters => 2,
            Refusal::WrongLetter(_) => 3,
            Refusal::NoRoom => 4,
        }
    }

    // The place of a wrong letter, 0 for every other refusal.
    pub fn place(self) -> usize
        ensures { result ≡ place_of_refusal self }
    {
        match self {
            Refusal::WrongLetter(place) => place,
            _ => 0,
        }
    }
}

// The number, and a text for people, of this crate's own cases.
impl fmt::Display for Refusal {
    ghost output = { λ r. Some (refusal_text r) };

    fn fmt<W: fmt::Write>(&self, f: &mut fmt::Formatter<W>) -> fmt::Result {
        write!(f, "{}: ", self.number())?;
        match self {
            Refusal::NoRecord => f.write_str("no header line before the first letter line"),
            Refusal::NoLetters => f.write_str("no letters"),
            Refusal::TooManyLetters => f.write_str("more letters than a ring has"),
            Refusal::WrongLetter(place) => write!(f, "no base at {place}"),
            Refusal::NoRoom => f.write_str("a room with too few bytes"),
        }
    }
}

impl Error for Refusal {}

// A record that is refused, and the text that remains: an empty part at the front where there is no record.
#[derive(Clone, Copy, Debug, PartialEq, Eq)]
pub struct Refused {
    pub refusal: Refusal,
    pub rest: Part,
}

impl fmt::Display for Refused {
    ghost output = { λ e. Some (refused_text e) };

    fn fmt<W: fmt::Write>(&self, f: &mut fmt::Formatter<W>) -> fmt::Result {
        write!(f, "{}", self.refusal)
    }
}

impl Error for Refused {}

// A record that is read: how many letters were written, and where its header and the text that remains stand.
#[derive(Clone, Copy, Debug, PartialEq, Eq)]
pub struct Taken {
    pub n: usize,
    pub header: Part,
    pub rest: Part,
}

// Where a record's header and the text that remains stand.
#[derive(Clone, Copy, Debug, PartialEq, Eq)]
pub struct Parts {
    pub header: Part,
    pub rest: Part,
}

// An empty part at the front of the lent text.
pub const FRONT: Part = Part { offset: 0, size: 0 };

// A record read, in 01's numbers, as a host is told it: the letters kept, and where its header and the text that remains stand.
#[derive(Clone, Copy, Debug, PartialEq, Eq)]
pub struct Record {
    pub number: u8,
    pub place: usize,
    pub n: usize,
    pub header: Part,
    pub rest: Part,
}

impl From<Result<Taken, Refused>> for Record {
    ghost from_gives = { λ r told. told ≡ told_record r };

    fn from(r: Result<Taken, Refused>) -> Record {
        match r {
            Ok(taken) => Record {
                number: 0,
                place: 0,
                n: taken.n,
                header: taken.header,
                rest: taken.rest,
            },
            Err(refused) => Record {
                number: refused.refusal.number(),
                place: refused.refusal.place(),
                n: 0,
                header: FRONT,
                rest: refused.rest,
            },
        }
    }
}

impl fmt::Display for Record {
    ghost output = { λ r. Some (record_text r) };

    fn fmt<W: fmt::Write>(&self, f: &mut fmt::Formatter<W>) -> fmt::Result {
        write!(
            f,
            "{} {} {} | {} | {}",
            self.number, self.place, self.n, self.header, self.rest
        )
    }
}

// A record found, in 01's numbers, as a host is told it: where its header and the text that remains stand.
#[derive(Clone, Copy, Debug, PartialEq, Eq)]
pub struct Found {
    pub number: u8,
    pub place: usize,
    pub header: Part,
    pub rest: Part,
}

impl From<Option<Parts>> for Found {
    ghost from_gives = { λ o told. told ≡ told_found o };

    fn from(o: Option<Parts>) -> Found {
        match o {
            Some(parts) => Found {
                number: 0,
                place: 0,
                header: parts.header,
                rest: parts.rest,
            },
            None => Found {
                number: Refusal::NoRecord.number(),
                place: 0,
                header: FRONT,
                rest: FRONT,
            },
        }
    }
}

impl fmt::Display for Found {
    ghost output = { λ f. Some (found_text f) };

    fn fmt<W: fmt::Write>(&self, f: &mut fmt::Formatter<W>) -> fmt::Result {
        write!(
            f,
            "{} {} | {} | {}",
            self.number, self.place, self.header, self.rest
        )
    }
}
