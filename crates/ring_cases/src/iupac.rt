// Kind 2: rings with uncertain letters, rings that are one, rooms of the key, and bytes that are no letters.
use super::brief::brief;
use super::calls::{compare, every};
use super::keys::{key, write_key};
use shown::Out;

// Every call on rings of the fifteen letters, and on one of four.
pub fn rings(out: &mut Out) {
    for ring in [
        &b"GAN"[..],
        b"NNN",
        b"YR",
        b"WSW",
        b"TMAK",
        b"ACGTRYSWKMBDHVN",
        b"GATTACA",
    ] {
        every(out, ring, 2);
    }
}

// Rings that are one and rings that are not: a letter matches only itself.
pub fn pairs(out: &mut Out) {
    out.text(b"COMPARE kind 2\n");
    for (first, second) in [
        (&b"RAT"[..], &b"ATY"[..]),
        (b"KGM", b"KCM"),
        (b"BDA", b"THV"),
        (b"SWA", b"TWS"),
        (b"SAA", b"WAA"),
        (b"NA", b"AA"),
        (b"RA", b"GA"),
        (b"NT", b"AN"),
        (b"TTGA", b"TCAA"),
    ] {
        compare(out, first, second, 2);
    }
}

// Rooms of n and of n - 1, no letters, small letters and U.
pub fn edges(out: &mut Out) {
    for (ring, size) in [
        (&b"ACN"[..], 3),
        (b"ACN", 2),
        (b"", 3),
        (b"ACn", 3),
        (b"AUN", 0),
    ] {
        brief(out, ring, 2, size);
    }
}

// Both rooms of the key count. A plain list: a loop for each call would say no less.
pub fn key_rooms(out: &mut Out) {
    out.text(b"ROOMS of TTGN's key, kind 2\n");
    write_key(out, b"TTGN", 2, 3, 4);
    write_key(out, b"TTGN", 2, 4, 3);
    write_key(out, b"TTGN", 2, 6, 5);
    key(out, b"TTGN", 2, 4, 3);
    key(out, b"TTGN", 2, 6, 5);
}
