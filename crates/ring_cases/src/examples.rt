// The rules' examples: the ten rows, ACGAC, rings that are one, and rings of both kinds.
use super::calls::{compare, every};
use shown::Out;

// The ten rows of the table.
pub fn rows(out: &mut Out) {
    for ring in [
        &b"A"[..],
        b"AC",
        b"CA",
        b"AAAA",
        b"ACAC",
        b"TATA",
        b"ACA",
        b"ACGT",
        b"TTGA",
        b"GATTACA",
    ] {
        every(out, ring, 1);
    }
}

// More rings: ACGAC, whose letters come again in a line but not round the ring, and feature rings.
pub fn more(out: &mut Out) {
    every(out, b"ACGAC", 1);
    for ring in [
        &b"GATTACA"[..],
        b"TTGA",
        b"\x80\x00\xff\n\x7f\x00",
        b"\xff\x80\x7f\n\x00",
        b"N",
    ] {
        every(out, ring, 0);
    }
}

// Rings that are one and rings that are not.
pub fn pairs(out: &mut Out) {
    out.text(b"COMPARE kind 1\n");
    for (first, second) in [
        (&b"TTGA"[..], &b"TCAA"[..]),
        (b"TTGA", b"AATC"),
        (b"TTGA", b"AGTT"),
        (b"ACGT", b"ACGT"),
        (b"ACGT", b"GTAC"),
        (b"AAAA", b"TTTT"),
        (b"ACAC", b"AACC"),
        (b"ACA", b"ACAC"),
    ] {
        compare(out, first, second, 1);
    }
    features(out);
}

// The same letters without an opposite strand.
fn features(out: &mut Out) {
    out.text(b"COMPARE kind 0\n");
    for (first, second) in [
        (&b"TTGA"[..], &b"TCAA"[..]),
        (b"TTGA", b"ATTG"),
        (b"AAAA", b"TTTT"),
        (b"\x00\xff", b"\xff\x00"),
        (b"\x00\xff", b"\x7f\x00"),
    ] {
        compare(out, first, second, 0);
    }
}
