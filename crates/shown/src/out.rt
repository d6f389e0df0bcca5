// What a program prints, on standard output, with the first failure: after it nothing more is printed.
use std::fmt::Display;
use std::io;
use std::io::{Stdout, Write};

// An entry of a table that nobody has written; printed as `-`.
pub const FRESH: u16 = 65535;

// From so many letters on, a ring is named by a few of them.
pub const MANY: usize = 30;

// Text, an answer and digits are each written in a form of its own, so each looks for the failure itself.
#[derive(Drop)]
pub struct Out {
    to: Stdout,
    first: io::Result<()>,
}

impl Out {
    pub fn new(to: Stdout) -> Out {
        Out { to, first: Ok(()) }
    }

    // The first failure, if there was one.
    pub fn end(self) -> io::Result<()> {
        let Out { first, .. } = self;
        first
    }

    // Bytes as they stand.
    pub fn text(&mut self, bytes: &[u8]) {
        if self.first.is_ok() {
            self.first = io::writer(&self.to).write_all(bytes);
        }
    }

    // The end of a line.
    pub fn line(&mut self) {
        self.text(b"\n");
    }

    // What parts two answers on one line.
    pub fn bar(&mut self) {
        self.text(b" |");
    }

    // A space, and what a call answered.
    pub fn answer(&mut self, answer: impl Display + Drop) {
        if self.first.is_ok() {
            let mut writer = io::writer(&self.to);
            self.first = write!(writer, " {answer}");
        }
    }

    // A space, and a number.
    pub fn number(&mut self, n: usize) {
        self.answer(n);
    }

    // A word, a space and a value.
    pub fn labelled(&mut self, word: &[u8], value: impl Display + Drop) {
        self.text(word);
        self.answer(value);
    }

    // A byte as two hexadecimal digits.
    fn digits(&mut self, b: u8) {
        if self.first.is_ok() {
            let mut writer = io::writer(&self.to);
            self.first = write!(writer, "{b:02x}");
        }
    }

    // A visible sign as it stands, and any other byte as < and > round its digits.
    fn letter(&mut self, b: u8) {
        if b.is_ascii_graphic() {
            self.text(&[b]);
            return;
        }
        self.text(b"<");
        self.digits(b);
        self.text(b">");
    }

    // A space, and letters one behind another.
    pub fn letters(&mut self, s: &[u8]) {
        self.text(b" ");
        for b in s {
            self.letter(*b);
        }
    }

    // A ring by its letters, or, if it is long, by its first three, its last and their number.
    pub fn named(&mut self, s: &[u8]) {
        match s {
            [a, b, c, .., last] if MANY <= s.len() => {
                self.letters(&[*a, *b, *c]);
                self.text(b"..");
                self.letter(*last);
                self.number(s.len());
            }
            _ => self.letters(s),
        }
    }

    // A space before each byte, as two digits.
    pub fn bytes(&mut self, s: &[u8]) {
        for b in s {
            self.text(b" ");
            self.digits(*b);
        }
    }

    // The entries of a table.
    pub fn entries(&mut self, table: &[u16]) {
        for v in table {
            match *v {
                FRESH => self.text(b" -"),
                entry => self.answer(entry),
            }
        }
    }

    // Two sums over bytes: of the bytes, and of the first sum after each byte.
    pub fn summed(&mut self, s: &[u8]) {
        let (of_bytes, of_sums) = s.iter().fold((0u64, 0u64), |(a, b), x| {
            let a = a.wrapping_add(u64::from(*x));
            (a, b.wrapping_add(a))
        });
        self.answer(of_bytes);
        self.answer(of_sums);
    }
}
