// One text and one room: what every call answers, and the parts that it hands back.
use fasta::{Found, Part, Record};
use shown::{Out, middle};

// The bytes of a room. A call asks where it lends: a `requires` would ask every case of a loop for its size.
const ROOM: usize = 30;

// The bytes of a part of a text.
fn cut(out: &mut Out, text: &[u8], part: Part) {
    let end = part.offset.saturating_add(part.size);
    if let Some(bytes) = text.get(part.offset..end) {
        out.letters(bytes);
    }
}

// The record in a room of `size` bytes, and the room with a byte before the lent ones and one behind.
fn read(out: &mut Out, text: &[u8], size: usize) {
    if ROOM - 2 < size {
        return;
    }
    let mut room = [b'.'; ROOM];
    let record = fasta::record(text, middle(&mut room, size));
    out.labelled(b"record", Record::from(record));
    out.text(b" :");
    out.letters(&room[..size + 2]);
    out.line();
}

// Where `find` says that the parts stand, and the bytes there.
fn find(out: &mut Out, text: &[u8]) {
    let found = Found::from(fasta::find(text));
    out.labelled(b"find", found);
    out.text(b" :");
    cut(out, text, found.header);
    out.bar();
    cut(out, text, found.rest);
    out.line();
}

// The parts as `header` and `rest` hand them back.
fn parts(out: &mut Out, text: &[u8]) {
    out.text(b"header");
    out.letters(fasta::header(text));
    out.text(b" | rest");
    out.letters(fasta::rest(text));
    out.line();
}

// What the case shows, the text and the room's size, and what the calls give.
fn case(out: &mut Out, what: &[u8], text: &[u8], size: usize) {
    out.text(what);
    out.line();
    out.text(b"text");
    out.letters(text);
    out.labelled(b" room", size);
    out.line();
    read(out, text, size);
    find(out, text);
    parts(out, text);
}

// Cases one after another: what each shows, its text and its room's size.
pub fn cases(out: &mut Out, all: &[(&[u8], &[u8], usize)]) {
    for &(what, text, size) in all {
        case(out, what, text, size);
    }
}
