// The answers that a host is told, each by its fields in their order. Each has fields of its own, so each has an impl of its own.
ghost use Rattle.probe.specs.Told.{checked_fields, factored_fields, fought_fields, repeated_fields, marked_fields, compared_fields, entry_fields, walked_fields, record_fields, found_fields};

use super::tell::Answer;
use fasta::{Found, Record};
use ring::{Checked, Compared, Factored, Fought, Marked, Repeated};
use sheet::{Entry, Walked};

impl Answer<1> for Checked {
    ghost number_told = { λ a. a.number };

    ghost fields_told = { checked_fields };

    fn number(&self) -> u8 {
        self.number
    }

    fn fields(&self) -> [u64; 1] {
        [self.place as u64]
    }
}

impl Answer<3> for Factored {
    ghost number_told = { λ a. a.number };

    ghost fields_told = { factored_fields };

    fn number(&self) -> u8 {
        self.number
    }

    fn fields(&self) -> [u64; 3] {
        [self.place as u64, self.count as u64, self.start as u64]
    }
}

impl Answer<3> for Fought {
    ghost number_told = { λ a. a.number };

    ghost fields_told = { fought_fields };

    fn number(&self) -> u8 {
        self.number
    }

    fn fields(&self) -> [u64; 3] {
        [self.place as u64, self.start as u64, self.pairs as u64]
    }
}

impl Answer<2> for Repeated {
    ghost number_told = { λ a. a.number };

    ghost fields_told = { repeated_fields };

    fn number(&self) -> u8 {
        self.number
    }

    fn fields(&self) -> [u64; 2] {
        [self.place as u64, self.repeat as u64]
    }
}

impl Answer<4> for Marked {
    ghost number_told = { λ a. a.number };

    ghost fields_told = { marked_fields };

    fn number(&self) -> u8 {
        self.number
    }

    fn fields(&self) -> [u64; 4] {
        [
            self.place as u64,
            self.n as u64,
            self.start as u64,
            u64::from(self.strand),
        ]
    }
}

impl Answer<3> for Compared {
    ghost number_told = { λ a. a.number };

    ghost fields_told = { compared_fields };

    fn number(&self) -> u8 {
        self.number
    }

    fn fields(&self) -> [u64; 3] {
        [
            self.place as u64,
            u64::from(self.ring),
            u64::from(self.same),
        ]
    }
}

impl Answer<6> for Entry {
    ghost number_told = { λ a. a.marked.number };

    ghost fields_told = { entry_fields };

    fn number(&self) -> u8 {
        self.marked.number
    }

    fn fields(&self) -> [u64; 6] {
        let m = &self.marked;
        [
            m.place as u64,
            m.n as u64,
            m.start as u64,
            u64::from(m.strand),
            u64::from(self.kind),
            self.before as u64,
        ]
    }
}

impl Answer<2> for Walked {
    ghost number_told = { λ a. a.number };

    ghost fields_told = { walked_fields };

    fn number(&self) -> u8 {
        self.number
    }

    fn fields(&self) -> [u64; 2] {
        [self.place as u64, self.sheets as u64]
    }
}

impl Answer<6> for Record {
    ghost number_told = { λ a. a.number };

    ghost fields_told = { record_fields };

    fn number(&self) -> u8 {
        self.number
    }

    fn fields(&self) -> [u64; 6] {
        [
            self.place as u64,
            self.n as u64,
            self.header.offset as u64,
            self.header.size as u64,
            self.rest.offset as u64,
            self.rest.size as u64,
        ]
    }
}

impl Answer<5> for Found {
    ghost number_told = { λ a. a.number };

    ghost fields_told = { found_fields };

    fn number(&self) -> u8 {
        self.number
    }

    fn fields(&self) -> [u64; 5] {
        [
            self.place as u64,
            self.header.offset as u64,
            self.header.size as u64,
            self.rest.offset as u64,
            self.rest.size as u64,
        ]
    }
}
