// The answers in 01's numbers: the number and place first, and for a refused call every other field 0. A host is told these (`probe`).
ghost use Rattle.std.specs.Prelude.{Some};
ghost use Rattle.ring.specs.Printed.{checked_text, factored_text, fought_text, repeated_text, marked_text, compared_text};

use std::fmt;

// The number and the place alone: a ring judged, a table or a room filled.
#[derive(Clone, Copy, Debug, PartialEq, Eq)]
pub struct Checked {
    pub number: u8,
    pub place: usize,
}

// The factor route: how many factors, and the start.
#[derive(Clone, Copy, Debug, PartialEq, Eq)]
pub struct Factored {
    pub number: u8,
    pub place: usize,
    pub count: usize,
    pub start: usize,
}

// The duel route: the start, and the pairs read.
#[derive(Clone, Copy, Debug, PartialEq, Eq)]
pub struct Fought {
    pub number: u8,
    pub place: usize,
    pub start: usize,
    pub pairs: usize,
}

// The repeat of a ring.
#[derive(Clone, Copy, Debug, PartialEq, Eq)]
pub struct Repeated {
    pub number: u8,
    pub place: usize,
    pub repeat: usize,
}

// The key's marks: how many letters it has, its start and its strand.
#[derive(Clone, Copy, Debug, PartialEq, Eq)]
pub struct Marked {
    pub number: u8,
    pub place: usize,
    pub n: usize,
    pub start: usize,
    pub strand: u8,
}

// The comparison: which ring was refused, and whether the two are one.
#[derive(Clone, Copy, Debug, PartialEq, Eq)]
pub struct Compared {
    pub number: u8,
    pub place: usize,
    pub ring: u8,
    pub same: bool,
}

// Each is printed by its fields in their order.

impl fmt::Display for Checked {
    ghost output = { λ a. Some (checked_text a) };

    fn fmt<W: fmt::Write>(&self, f: &mut fmt::Formatter<W>) -> fmt::Result {
        write!(f, "{} {}", self.number, self.place)
    }
}

impl fmt::Display for Factored {
    ghost output = { λ a. Some (factored_text a) };

    fn fmt<W: fmt::Write>(&self, f: &mut fmt::Formatter<W>) -> fmt::Result {
        write!(
            f,
            "{} {} {} {}",
            self.number, self.place, self.count, self.start
        )
    }
}

impl fmt::Display for Fought {
    ghost output = { λ a. Some (fought_text a) };

    fn fmt<W: fmt::Write>(&self, f: &mut fmt::Formatter<W>) -> fmt::Result {
        write!(
            f,
            "{} {} {} {}",
            self.number, self.place, self.start, self.pairs
        )
    }
}

impl fmt::Display for Repeated {
    ghost output = { λ a. Some (repeated_text a) };

    fn fmt<W: fmt::Write>(&self, f: &mut fmt::Formatter<W>) -> fmt::Result {
        write!(f, "{} {} {}", self.number, self.place, self.repeat)
    }
}

impl fmt::Display for Marked {
    ghost output = { λ a. Some (marked_text a) };

    fn fmt<W: fmt::Write>(&self, f: &mut fmt::Formatter<W>) -> fmt::Result {
        write!(
            f,
            "{} {} {} {} {}",
            self.number, self.place, self.n, self.start, self.strand
        )
    }
}

impl fmt::Display for Compared {
    ghost output = { λ a. Some (compared_text a) };

    fn fmt<W: fmt::Write>(&self, f: &mut fmt::Formatter<W>) -> fmt::Result {
        let same = if self.same { "yes" } else { "no" };
        write!(f, "{} {} {} {same}", self.number, self.place, self.ring)
    }
}
