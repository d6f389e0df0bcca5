// A ring turned by one letter, and its opposite strand.

// The letter that faces a letter; S, W, N and a byte that is no letter face themselves. A plain table of its own, beside which the
// library's is seen.
fn facing(b: u8) -> u8 {
    match b {
        b'A' => b'T',
        b'C' => b'G',
        b'G' => b'C',
        b'T' => b'A',
        b'R' => b'Y',
        b'Y' => b'R',
        b'K' => b'M',
        b'M' => b'K',
        b'B' => b'V',
        b'V' => b'B',
        b'D' => b'H',
        b'H' => b'D',
        _ => b,
    }
}

// The letters from 1 round to 0.
pub fn turn(ring: &mut [u8]) {
    if !ring.is_empty() {
        ring.rotate_left(1);
    }
}

// The letters in backward order, each exchanged for the one that faces it.
pub fn opposite(ring: &mut [u8]) {
    ring.reverse();
    for b in ring {
        *b = facing(*b);
    }
}
