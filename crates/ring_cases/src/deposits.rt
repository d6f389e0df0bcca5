// Letters judged as a key, and the deposit that has the key written to a room.
use super::calls::{LENT, SHORT};
use super::edges::LONG;
use ring::{MOST, Marked};
use shown::{Out, middle};

// What both calls are told.
#[derive(Clone, Copy)]
struct Key<'a> {
    letters: &'a [u8],
    kind: u8,
    start: usize,
    strand: u8,
}

impl Key<'_> {
    fn told(self, out: &mut Out) {
        out.letters(self.letters);
        out.labelled(b" kind", self.kind);
        out.labelled(b" start", self.start);
        out.labelled(b" strand", self.strand);
    }

    fn judged(self, out: &mut Out) {
        out.text(b"CHECK_KEY");
        self.told(out);
        let marks = ring::check_key(self.letters, self.kind, self.start, self.strand);
        out.labelled(b" :", Marked::from(marks));
        out.line();
    }

    // The deposit in a room of `size` bytes, with a byte before the lent ones and one behind.
    fn deposited(self, out: &mut Out, size: usize) {
        if LENT < size {
            return;
        }
        let mut room = [b'.'; SHORT];
        out.text(b"WRITE_DEPOSIT");
        self.told(out);
        out.labelled(b" room", size);
        let written = ring::write_deposit(
            self.letters,
            self.kind,
            self.start,
            self.strand,
            middle(&mut room, size),
        );
        out.labelled(b" :", Marked::from(written));
        out.letters(&room[..size + 2]);
        out.line();
    }
}

// Letters of one kind judged as keys.
fn judged(out: &mut Out, kind: u8, keys: &[(&[u8], usize, u8)]) {
    for &(letters, start, strand) in keys {
        Key {
            letters,
            kind,
            start,
            strand,
        }
        .judged(out);
    }
}

// The deposits that have keys of one kind, each in a room of the size named last, which `judged` has no use for.
fn deposited(out: &mut Out, kind: u8, keys: &[(&[u8], usize, u8, usize)]) {
    for &(letters, start, strand, size) in keys {
        Key {
            letters,
            kind,
            start,
            strand,
        }
        .deposited(out, size);
    }
}

// Base rings: ACAC and ACGT, which are their own opposites, readings that are no key, rings of one letter, and a letter that is none.
pub fn bases(out: &mut Out) {
    judged(
        out,
        1,
        &[
            (b"AATCTGT", 3, 1),
            (b"AATCTGT", 6, 0),
            (b"AATCTGT", 7, 0),
            (b"AATCTGT", 3, 2),
            (b"ACAC", 0, 0),
            (b"ACAC", 1, 0),
            (b"ACAC", 2, 0),
            (b"ACAC", 1, 1),
            (b"ACGT", 3, 0),
            (b"ACGT", 0, 1),
            (b"ACAGATT", 4, 0),
            (b"CA", 0, 0),
            (b"ACA", 0, 0),
            (b"T", 0, 0),
            (b"A", 0, 1),
            (b"A", 1, 0),
            (b"AAN", 0, 0),
        ],
    );
}

// Rings of kind 2: keys on both strands, a tie, a reading that is no key, and a byte that is no letter.
pub fn uncertain(out: &mut Out) {
    judged(
        out,
        2,
        &[
            (b"AKN", 2, 0),
            (b"AKN", 1, 1),
            (b"ANNT", 0, 0),
            (b"ANNT", 0, 1),
            (b"NAK", 0, 0),
            (b"AKn", 0, 0),
        ],
    );
    deposited(
        out,
        2,
        &[(b"AKN", 2, 0, 3), (b"AKN", 1, 1, 4), (b"AKN", 1, 1, 2)],
    );
}

// Feature rings, and what is no ring.
pub fn features(out: &mut Out) {
    judged(
        out,
        0,
        &[
            (b"ACAGATT", 4, 0),
            (b"ACAGATT", 4, 1),
            (b"TT", 0, 0),
            (b"TT", 1, 0),
            (b"\x00\x7f\x80\xff", 3, 0),
            (b"\x80\x7f", 0, 0),
            (b"A", usize::MAX, 0),
            (b"", 0, 0),
        ],
    );
    judged(out, 1, &[(b"", 0, 0)]);
    judged(out, 3, &[(b"A", 0, 0)]);
}

// 8,192 letters A at the starts 0 and 1, and 8,193.
pub fn long(out: &mut Out) {
    out.text(b"CHECK_KEY of 8,192 A at 0 and at 1, of 8,193 A :");
    out.answer(Marked::from(ring::check_key(&LONG[..MOST], 1, 0, 0)));
    out.bar();
    out.answer(Marked::from(ring::check_key(&LONG[..MOST], 1, 1, 0)));
    out.bar();
    out.answer(Marked::from(ring::check_key(&LONG, 1, 0, 0)));
    out.line();
}

// Deposits of both kinds and strands, in rooms that are exact, long and short.
pub fn deposits(out: &mut Out) {
    deposited(
        out,
        1,
        &[
            (b"AATCTGT", 3, 1, 7),
            (b"AATCTGT", 3, 1, 8),
            (b"AATCTGT", 3, 1, 6),
            (b"AATCTGT", 6, 0, 7),
            (b"AATCTGT", 6, 0, 8),
            (b"AATCTGT", 6, 0, 6),
        ],
    );
    deposited(
        out,
        0,
        &[
            (b"ACAGATT", 4, 0, 7),
            (b"ACAGATT", 4, 0, 8),
            (b"ACAGATT", 4, 0, 6),
        ],
    );
    few_letters(out);
}

// Every start of ACAC below its repeat, on both strands, and rings of one letter and of bytes.
fn few_letters(out: &mut Out) {
    deposited(
        out,
        1,
        &[
            (b"ACAC", 0, 0, 4),
            (b"ACAC", 1, 0, 4),
            (b"ACAC", 0, 1, 4),
            (b"ACAC", 1, 1, 4),
            (b"A", 0, 0, 1),
            (b"A", 0, 1, 1),
            (b"A", 0, 1, 0),
        ],
    );
    deposited(out, 0, &[(b"\x00\x7f\x80\xff", 3, 0, 5)]);
}

// Refusals in their order: 7 before 4, 3 before 7 and 4, 1 and 6 before all.
pub fn refusals(out: &mut Out) {
    deposited(
        out,
        1,
        &[
            (b"AATCTGT", 7, 0, 7),
            (b"AATCTGT", 7, 0, 6),
            (b"AATCTGT", 3, 2, 7),
            (b"ACAC", 2, 0, 0),
            (b"ACGT", 0, 1, 4),
        ],
    );
    deposited(out, 0, &[(b"ACAGATT", 4, 1, 7), (b"A", usize::MAX, 0, 1)]);
    deposited(
        out,
        1,
        &[(b"AAN", 0, 0, 3), (b"AAN", 9, 2, 2), (b"", 0, 0, 0)],
    );
    deposited(out, 0, &[(b"", 5, 2, 3)]);
    deposited(out, 3, &[(b"ACG", 0, 0, 3), (b"AAN", 9, 2, 0)]);
    deposited(out, 255, &[(b"", 0, 0, 0)]);
}
