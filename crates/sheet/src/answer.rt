// The answers in 01's numbers: the number and place first, and for refused bytes every other field 0. A host is told these (`probe`).
ghost use Rattle.std.specs.Prelude.{Some};
ghost use Rattle.sheet.specs.Printed.{entry_text, walked_text};

use ring::Marked;
use std::fmt;

// A sheet read: the key's marks, its kind, and how many bytes stand before it.
#[derive(Clone, Copy, Debug, PartialEq, Eq)]
pub struct Entry {
    pub marked: Marked,
    pub kind: u8,
    pub before: usize,
}

// A book walked.
#[derive(Clone, Copy, Debug, PartialEq, Eq)]
pub struct Walked {
    pub number: u8,
    pub place: usize,
    pub sheets: usize,
}

// Each is printed by its fields in their order.

impl fmt::Display for Entry {
    ghost output = { λ a. Some (entry_text a) };

    fn fmt<W: fmt::Write>(&self, f: &mut fmt::Formatter<W>) -> fmt::Result {
        write!(f, "{} {} {}", self.marked, self.kind, self.before)
    }
}

impl fmt::Display for Walked {
    ghost output = { λ a. Some (walked_text a) };

    fn fmt<W: fmt::Write>(&self, f: &mut fmt::Formatter<W>) -> fmt::Result {
        write!(f, "{} {} {}", self.number, self.place, self.sheets)
    }
}
