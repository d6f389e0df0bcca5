// Sheets written, read back and turned back to their deposit.
use ring::{Checked, Marked};
use sheet::{Entry, Walked};
use shown::{Out, middle};

// The bytes of a room.
const ROOM: usize = 40;

// How many of them may be lent, with one before and one behind. A call asks where it lends: a `requires` would ask every case of a
// loop for its size.
const LENT: usize = ROOM - 2;

// The sheet of GATTACA.
const GATTACA: &[u8] = b"AATCTGT\x07\x00\x03\x00\x01\x01RG";

// The deposit in a room with a byte before the lent ones and one behind.
fn original(out: &mut Out, bytes: &[u8], size: usize) {
    if LENT < size {
        return;
    }
    let mut room = [b'.'; ROOM];
    // `Checked` is the ring's, and so no crate but the ring's gives a `From` of a `Result` for it.
    let answer = match sheet::original(bytes, middle(&mut room, size)) {
        Ok(()) => Checked {
            number: 0,
            place: 0,
        },
        Err(refusal) => Checked::from(refusal),
    };
    out.labelled(b"original", answer);
    out.text(b" :");
    out.letters(&room[..size + 2]);
    out.line();
}

// Everything that lent bytes hold: marks, letters, and the deposit in a room of `size` bytes.
fn opened(out: &mut Out, bytes: &[u8], size: usize) {
    out.labelled(b"read", Entry::from(sheet::read(bytes)));
    out.text(b" | letters");
    out.letters(sheet::letters(bytes));
    out.labelled(b" walk", Walked::from(sheet::walk(bytes)));
    out.line();
    original(out, bytes, size);
}

// A sheet in a room of `size` bytes, with a byte 2e before the lent ones and one behind.
fn written(out: &mut Out, ring: &[u8], kind: u8, size: usize) {
    if LENT < size {
        return;
    }
    let mut room = [b'.'; ROOM];
    out.text(b"SHEET of");
    out.letters(ring);
    out.labelled(b" kind", kind);
    out.labelled(b" room", size);
    let answer = sheet::write(ring, kind, middle(&mut room, size));
    out.labelled(b" :", Marked::from(answer));
    out.text(b" :");
    out.bytes(&room[..size + 2]);
    out.line();
}

// A sheet written and read back.
fn deposited(out: &mut Out, ring: &[u8], kind: u8) {
    let mut room = [0u8; ROOM];
    let size = ring.len() + 8;
    written(out, ring, kind, size);
    let _ = sheet::write(ring, kind, &mut room);
    if let Some(bytes) = room.get(..size) {
        opened(out, bytes, ring.len());
    }
}

// Written and read back, of both kinds, with feature rings whose letters hold the tag, and a whole sheet: of A as a feature ring, and of
// GATTACA.
pub fn deposits(out: &mut Out) {
    for (ring, kind) in [
        (&b"GATTACA"[..], 1),
        (b"CACA", 1),
        (b"ACGT", 1),
        (b"TTGA", 1),
        (b"A", 1),
        (b"T", 1),
        (b"GATTACA", 0),
        (b"\xff\x80\x7f\n\x00", 0),
        (b"RG", 0),
        (b"GR", 0),
        (b"\x00\x00\x00\x00\x00\x00A\x01\x00\x00\x00\x00\x00RG", 0),
        (GATTACA, 0),
    ] {
        deposited(out, ring, kind);
    }
}

// Of kind 2, on both strands and on a tie; a ring over A, C, G, T; sheets with a strand, a letter and a start that are wrong.
pub fn uncertain(out: &mut Out) {
    for ring in [&b"GAN"[..], b"MTN", b"YR", b"GATTACA"] {
        deposited(out, ring, 2);
    }
    written(out, b"GAn", 2, 11);
    written(out, b"GAN", 2, 10);
    given(
        out,
        &[
            (b"AKN\x03\x00\x01\x00\x01\x02RG", 3),
            (b"AKN\x03\x00\x01\x00\x02\x02RG", 3),
            (b"AKn\x03\x00\x01\x00\x01\x02RG", 3),
            (b"AKN\x03\x00\x01\x00\x01\x01RG", 3),
            (b"ANNT\x04\x00\x00\x00\x01\x02RG", 4),
            (b"RG\x02\x00\x00\x00\x00\x02RG", 2),
        ],
    );
}

// Rooms of n + 7 bytes, of none, of more, and what is refused before them.
pub fn rooms(out: &mut Out) {
    for (ring, kind, size) in [
        (&b"GATTACA"[..], 1, 14),
        (b"GATTACA", 1, 0),
        (b"GATTACA", 1, 17),
        (b"GATTACA", 0, 14),
        (b"", 1, 7),
        (b"GAN", 1, 3),
        (b"GAT", 3, 3),
    ] {
        written(out, ring, kind, size);
    }
    originals(out);
}

fn originals(out: &mut Out) {
    out.text(b"ORIGINAL of GATTACA's sheet in rooms of 6, 0 and 9\n");
    for size in [6, 0, 9] {
        original(out, GATTACA, size);
    }
}

// Bytes that stand for a sheet, each with the room for its deposit.
fn given(out: &mut Out, cases: &[(&[u8], usize)]) {
    for &(bytes, size) in cases {
        out.text(b"GIVEN");
        out.letters(bytes);
        out.line();
        opened(out, bytes, size);
    }
}

// The rules' own edges.
pub fn edges(out: &mut Out) {
    given(
        out,
        &[
            (b"ACAC\x04\x00\x00\x00\x00\x01RG", 4),
            (b"ACAC\x04\x00\x01\x00\x00\x01RG", 4),
            (b"ACAC\x04\x00\x02\x00\x00\x01RG", 4),
            (b"ACAC\x04\x00\x01\x00\x00\x01RG", 3),
            (b"ACAC\x04\x00\x02\x00\x00\x01RG", 3),
            (b"ACGT\x04\x00\x00\x00\x00\x01RG", 4),
            (b"ACGT\x04\x00\x00\x00\x01\x01RG", 4),
            (b"ACGT\x04\x00\x04\x00\x00\x01RG", 4),
            (b"ACGT\x04\x00\x00\x01\x00\x01RG", 4),
            (b"CA\x02\x00\x00\x00\x00\x01RG", 2),
            (b"GT\x02\x00\x00\x00\x00\x01RG", 2),
            (b"CA\x02\x00\x00\x00\x00\x00RG", 2),
        ],
    );
}

// Marks that are wrong, alone and two at once.
pub fn marks(out: &mut Out) {
    given(
        out,
        &[
            (b"AAN\x03\x00\x00\x00\x00\x01RG", 3),
            (b"AAN\x03\x00\x09\x00\x00\x01RG", 0),
            (b"NC\x01\x00\x00\x00\x00\x01RG", 1),
            (b"AC\x02\x00\x00\x00\x01\x00RG", 2),
            (b"AC\x02\x00\x00\x00\x02\x01RG", 2),
            (b"AC\x02\x00\x00\x00\x00\x03RG", 2),
            (b"AC\x02\x00\x00\x00\x00\x01RF", 2),
            (b"AC\x02\x00\x00\x00\x00\x01GR", 2),
            (b"AC\x00\x00\x00\x00\x00\x03RG", 2),
            (b"AC\x03\x00\x00\x00\x00\x03RG", 2),
            (b"AN\x02\x00\x00\x00\x00\x03RG", 2),
            (b"CN\x02\x00\x09\x00\x00\x01RG", 2),
        ],
    );
}

// Ways back.
pub fn ways(out: &mut Out) {
    given(
        out,
        &[
            (b"AC\x00\x00\x00\x00\x00\x01RG", 2),
            (b"AC\x01\x00\x00\x00\x00\x01RG", 2),
            (b"AC\x03\x00\x00\x00\x00\x01RG", 2),
            (b"NC\x03\x00\x00\x00\x00\x01RG", 2),
            (b"AC\x00\x02\x00\x00\x00\x01RG", 2),
            (b"AC\x00\x20\x00\x00\x00\x01RG", 2),
            (b"AC\x01\x20\x00\x00\x00\x01RG", 2),
            (b"AC\xff\xff\x00\x00\x00\x01RG", 2),
            (b"\x01\x00\x00\x00\x00\x01RG", 2),
            (b"\x00\x00\x00\x00\x01RG", 2),
            (b"", 0),
            (b"NNNAATCTGT\x07\x00\x03\x00\x01\x01RG", 7),
            (
                b"A\x01\x00\x00\x00\x00\x01RGAC\x02\x00\x00\x00\x00\x01RG",
                2,
            ),
        ],
    );
}
