// The comparison's refusals: the first ring is judged in full before the second, and only then the lengths.
use super::edges::LONG;
use ring::{Compared, MOST};
use shown::Out;

// One ring against ACG, GAC, AC, no letters, 8,193 letters, 8,192 letters, ACN and N.
fn against(out: &mut Out, first: &[u8], kind: u8) {
    out.text(b"COMPARE");
    out.named(first);
    out.labelled(b" kind", kind);
    out.text(b" with the eight\n");
    out.answer(Compared::from(ring::compare(first, b"ACG", kind)));
    for second in [&b"GAC"[..], b"AC", b"", &LONG, &LONG[..MOST], b"ACN", b"N"] {
        out.bar();
        out.answer(Compared::from(ring::compare(first, second, kind)));
    }
    out.line();
}

pub fn refusals(out: &mut Out) {
    for (first, kind) in [
        (&b"ACG"[..], 1),
        (b"CGT", 1),
        (b"", 1),
        (b"ACN", 1),
        (b"NAN", 1),
        (b"ACG", 0),
        (b"", 0),
        (b"ACN", 2),
        (b"ACn", 2),
        (b"ACG", 3),
        (b"", 3),
    ] {
        against(out, first, kind);
    }
}

// The long rings as the first.
pub fn long(out: &mut Out) {
    for (first, kind) in [(&LONG[..], 1), (&LONG[..MOST], 1), (&LONG, 0), (&LONG, 3)] {
        against(out, first, kind);
    }
}
