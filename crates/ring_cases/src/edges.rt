// The edges of the numbers: lengths, letters, tables and rooms, and two refusals at once.
use super::brief::brief;
use super::keys::{key, write_key};
use super::tables::{factors, starts, suffixes};
use ring::MOST;
use shown::Out;

// One letter more than a ring may have.
pub static LONG: [u8; MOST + 1] = [b'A'; MOST + 1];

// Short rings with room enough and too little, and none; a kind that is none, and letters that are none.
pub fn short(out: &mut Out) {
    for (ring, kind, size) in [
        (&b"ACG"[..], 1, 3),
        (b"ACG", 1, 4),
        (b"ACG", 1, 2),
        (b"ACG", 1, 0),
        (b"ACG", 0, 2),
        (b"", 1, 0),
        (b"", 1, 3),
        (b"", 0, 0),
        (b"ACG", 3, 3),
        (b"ACG", 255, 3),
        (b"NCG", 1, 3),
        (b"ACN", 1, 3),
        (b"ANCgT", 1, 5),
        (b"ACG\n", 1, 4),
    ] {
        brief(out, ring, kind, size);
    }
}

// Two refusals at once on short rings.
pub fn both(out: &mut Out) {
    for (ring, kind, size) in [
        (&b""[..], 3, 0),
        (b"ACN", 3, 3),
        (b"ACG", 3, 2),
        (b"ACN", 3, 0),
        (b"ACN", 1, 2),
        (b"ACN", 1, 0),
    ] {
        brief(out, ring, kind, size);
    }
}

// 8,192 letters are taken.
pub fn full(out: &mut Out) {
    for (kind, size) in [(1, MOST), (1, MOST - 1), (0, MOST), (0, MOST - 1)] {
        brief(out, &LONG[..MOST], kind, size);
    }
}

// 8,192 letters of which the last is C, and then N.
pub fn full_last(out: &mut Out) {
    let mut ring = [b'A'; MOST];
    ring[MOST - 1] = b'C';
    brief(out, &ring, 1, MOST);
    ring[MOST - 1] = b'N';
    for (kind, size) in [(1, MOST), (1, 0), (0, MOST)] {
        brief(out, &ring, kind, size);
    }
}

// 8,193 letters are not.
pub fn beyond(out: &mut Out) {
    for (kind, size) in [(1, MOST + 1), (0, MOST + 1), (1, 0), (3, MOST + 1)] {
        brief(out, &LONG, kind, size);
    }
    let mut ring = LONG;
    ring[0] = b'N';
    brief(out, &ring, 1, MOST + 1);
}

// The bytes that are letters of a kind.
pub fn alphabet(out: &mut Out, kind: u8) {
    out.labelled(b"LETTERS of kind", kind);
    out.text(b" :");
    for b in 0..=255 {
        if ring::check(&[b], kind).is_ok() {
            out.letters(&[b]);
        }
    }
    out.line();
}

// Tables and rooms that are short, exact and long, with what they hold. Each line is a call of its own kind and ring.
pub fn rooms(out: &mut Out) {
    out.text(b"ROOMS of TTGA and GATTACA\n");
    factors(out, b"TTGA", 1, 3);
    factors(out, b"GATTACA", 1, 6);
    factors(out, b"GATTACA", 1, 9);
    suffixes(out, b"GATTACA", 1, 6);
    suffixes(out, b"GATTACA", 1, 9);
    starts(out, b"GATTACA", 1, 6);
    starts(out, b"GATTACA", 1, 9);
}

// The two rooms of the key.
pub fn key_rooms(out: &mut Out) {
    out.text(b"ROOMS of TTGA's key, kind 1 and kind 0\n");
    for (kind, one, two) in [
        (1, 3, 4),
        (1, 4, 3),
        (1, 3, 3),
        (1, 6, 5),
        (0, 4, 0),
        (0, 6, 6),
        (0, 3, 4),
    ] {
        write_key(out, b"TTGA", kind, one, two);
    }
    part_rooms(out);
}

// The two rooms of which the key comes back as a part.
fn part_rooms(out: &mut Out) {
    for (kind, one, two) in [(1, 3, 4), (1, 4, 3), (1, 6, 5), (0, 4, 0), (0, 3, 4)] {
        key(out, b"TTGA", kind, one, two);
    }
    key(out, b"TTGN", 1, 4, 4);
}

// Refused answers that a crate above makes.
pub fn refused(out: &mut Out) {
    for (number, place) in [(5, 0), (3, MOST - 1), (255, usize::MAX)] {
        out.labelled(b"REFUSAL", number);
        out.labelled(b" at", place);
        out.labelled(b" :", ring::refusal(number, place));
        out.line();
    }
}
