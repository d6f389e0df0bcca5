// A text read to its end, each record from what the one before left.
use fasta::Record;
use shown::{MANY, Out, middle};

// The largest room lent: for one letter more than a ring may have.
const LARGEST: usize = ring::MOST + 1;

// What is in a room: all of it, or for a large room what names it, and two sums over it.
fn filled(out: &mut Out, room: &[u8]) {
    out.named(room);
    if MANY <= room.len() {
        out.summed(room);
    }
}

// A record in a fresh room of `size` bytes: its fields, its header, and the room with a byte before the lent ones and one behind.
fn step(out: &mut Out, text: &[u8], size: usize) {
    if LARGEST < size {
        return;
    }
    let mut room = [b'.'; LARGEST + 2];
    let record = fasta::record(text, middle(&mut room, size));
    out.answer(Record::from(record));
    out.text(b" :");
    out.letters(fasta::header(text));
    out.text(b" :");
    filled(out, &room[..size + 2]);
    out.line();
}

// What the walk shows, the text and the room's size.
fn heading(out: &mut Out, what: &[u8], text: &[u8], size: usize) {
    out.text(what);
    out.line();
    out.text(b"walk");
    if text.len() < 100 {
        out.letters(text);
    } else {
        out.named(text);
    }
    out.labelled(b" room", size);
    out.line();
}

// Every record of a text, each in a room of `size` bytes; the rest is shorter each time, so this ends. It is a `while`, since a record
// hands back only the text behind it.
pub fn walk(out: &mut Out, what: &[u8], text: &[u8], size: usize) {
    heading(out, what, text, size);
    let mut left = text;
    while !left.is_empty() {
        step(out, left, size);
        left = fasta::rest(left);
    }
}

// Walks one after another: what each shows, its text and its room's size; `cases` is the same of another call.
fn walks(out: &mut Out, all: &[(&[u8], &[u8], usize)]) {
    for &(what, text, size) in all {
        walk(out, what, text, size);
    }
}

// Texts read to the end.
pub fn texts(out: &mut Out) {
    walks(
        out,
        &[
            (b"Two records", b">one\nACGT\n>two\nGATTACA\n", 8),
            (
                b"Three records of every kind of line",
                b"\n>one 1\r\nac gt\r\n\r\n>\nTT\n\t\nGA\n>three\nA",
                4,
            ),
            (b"8 ends a walk", b"A\n>one\nACGT\n", 4),
        ],
    );
}

// Records that are refused, with the records behind them read on.
pub fn refused(out: &mut Out) {
    walks(
        out,
        &[
            (b"1, and read on", b">a\n>b\nAC\n", 4),
            (b"3, and read on", b">a\nACNT\n>b\nAC\n", 4),
            (b"4, and read on", b">a\nACGTA\n>b\nAC\n", 4),
            (
                b"3, 1, 4 and 0 in one text",
                b">a\nN\n>b\n>c\nACGTA\n>d\nACGT\n>e\n",
                4,
            ),
        ],
    );
}
