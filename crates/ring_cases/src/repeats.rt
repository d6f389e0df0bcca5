// The repeat of rings that are a word over and over, wherever they are opened, and of rings that are not.
use ring::Repeated;
use shown::Out;

// The repeat of one ring, with its letters.
fn of(out: &mut Out, ring: &[u8], kind: u8) {
    out.text(b"repeat of");
    out.letters(ring);
    out.labelled(b" kind", kind);
    out.labelled(b" :", Repeated::from(ring::repeat(ring, kind)));
    out.line();
}

// A word over and over.
pub fn again(out: &mut Out) {
    for ring in [
        &b"ACAC"[..],
        b"CACACA",
        b"AAAAA",
        b"AACAAC",
        b"ACAACA",
        b"CAACAA",
        b"TACGTACG",
        b"GATTACAGATTACA",
        b"TGTAATCTGTAATC",
        b"TACAGATTACAGATTACAGAT",
    ] {
        of(out, ring, 1);
    }
    of(out, b"\xff\x00\x80\xff\x00\x80", 0);
}

// A word once: the repeat is n, also where the letters come again in a line.
pub fn once(out: &mut Out) {
    for ring in [
        &b"ACGAC"[..],
        b"ACACA",
        b"CAC",
        b"AACAACA",
        b"AAAAC",
        b"CAAAA",
        b"GTACGTACG",
        b"AACAAG",
    ] {
        of(out, ring, 1);
    }
    of(out, b"\xff\x00\xff", 0);
}
