// The key's letters written to one room.
use super::calls::{LENT, SHORT};
use ring::Marked;
use shown::{Out, middle};

// The answer, and the room of `size` bytes with a byte before the lent ones and one behind.
pub fn written(out: &mut Out, ring: &[u8], kind: u8, size: usize) {
    if LENT < size {
        return;
    }
    let mut room = [b'.'; SHORT];
    let lent = middle(&mut room, size);
    out.answer(Marked::from(ring::write_letters(ring, kind, lent)));
    out.text(b" :");
    out.letters(&room[..size + 2]);
}

// Rooms of no bytes, of n - 1 where there are letters, of n and n + 1.
fn rooms(out: &mut Out, ring: &[u8], kind: u8) {
    let n = ring.len();
    out.text(b"WRITE_LETTERS");
    out.letters(ring);
    out.labelled(b" kind", kind);
    out.line();
    written(out, ring, kind, 0);
    for size in n.saturating_sub(1)..=n + 1 {
        out.bar();
        written(out, ring, kind, size);
    }
    out.line();
}

// Keys on both strands, a tie, rings of one letter and of bytes.
pub fn done(out: &mut Out) {
    for (ring, kind) in [
        (&b"GATTACA"[..], 1),
        (b"GATTACA", 0),
        (b"TTGA", 1),
        (b"TTGA", 0),
        (b"TATA", 1),
        (b"CA", 1),
        (b"T", 1),
        (b"T", 0),
        (b"\xff\x80\x7f\n\x00", 0),
        (b"GAN", 2),
    ] {
        rooms(out, ring, kind);
    }
}

// No letters, a letter that is none, and a kind that is none, alone and together.
pub fn refusals(out: &mut Out) {
    for (ring, kind) in [
        (&b""[..], 1),
        (b"", 0),
        (b"GAN", 1),
        (b"NAG", 1),
        (b"GAN", 0),
        (b"GAT", 3),
        (b"GAT", 255),
        (b"GAN", 3),
        (b"", 3),
    ] {
        rooms(out, ring, kind);
    }
}
