// Books: sheets one behind another, walked from the end.
use super::damage;
use sheet::Walked;
use shown::Out;

// Puts a sheet into a book at `at`, and answers where it ends.
fn put(book: &mut [u8], at: usize, ring: &[u8], kind: u8) -> usize {
    if let Some(room) = book.get_mut(at..) {
        let _ = sheet::write(ring, kind, room);
    }
    at.saturating_add(ring.len()).saturating_add(8)
}

// The walk over the first bytes of a book.
fn walk(out: &mut Out, book: &[u8], size: usize) {
    if let Some(sheets) = book.get(..size) {
        out.answer(Walked::from(sheet::walk(sheets)));
        out.bar();
    }
}

// Three sheets one behind another: the walk after each of them, every byte damaged, and every cut at both ends.
pub fn three(out: &mut Out) {
    let mut book = [0u8; 64];
    let a = put(&mut book, 0, b"GATTACA", 1);
    let b = put(&mut book, a, b"\xffRG", 0);
    let c = put(&mut book, b, b"A", 1);
    out.text(b"BOOK of three sheets, of none, one, two and all, and one byte more :");
    for size in [0, a, b, c, c.saturating_add(1)] {
        walk(out, &book, size);
    }
    out.line();
    if let Some(sheets) = book.get_mut(..c) {
        damage::cut(out, sheets);
    }
}

// Three sheets of the three kinds: the walk after each of them.
pub fn kinds(out: &mut Out) {
    let mut book = [0u8; 64];
    let a = put(&mut book, 0, b"GAN", 2);
    let b = put(&mut book, a, b"GAN", 0);
    let c = put(&mut book, b, b"GAC", 1);
    out.text(b"BOOK of kinds 2, 0 and 1, of one, two and all sheets :");
    for size in [a, b, c] {
        walk(out, &book, size);
    }
    out.line();
}

// A book with 0 to 9 bytes left over in front of two sheets.
pub fn left_overs(out: &mut Out) {
    out.text(b"BOOK with bytes left over in front");
    for front in 0..10 {
        let mut book = [b'A'; 64];
        let a = put(&mut book, front, b"GATTACA", 1);
        let b = put(&mut book, a, b"ACAC", 1);
        out.number(front);
        out.text(b" :");
        walk(out, &book, b);
    }
    out.line();
}
