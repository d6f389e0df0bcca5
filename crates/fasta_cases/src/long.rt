// Records of 8,192 letters and of more, with a record behind them that is read on.
use super::walk::walk;
use ring::MOST;
use shown::Out;

// A line of one blank, and a header.
const FRONT: &[u8; 5] = b" \n>a\n";

// A line's end, and a record of two letters.
const BACK: &[u8; 7] = b"\n>b\nGT\n";

// Where the first of MOST + 1 letters stands, behind the header.
const FIRST: usize = FRONT.len();

// Where the last of them stands, in lines of 60.
const LAST: usize = FIRST + MOST + MOST / 60;

// Where its line ends, with the next header behind it.
const END: usize = LAST + 1;

// The bytes of the whole text.
const SIZE: usize = END + BACK.len();

// The byte at `i` of lines of 60 letters, A, c, G and t by turns, each line ended by LF.
fn row(i: usize) -> u8 {
    match (i % 61, i % 4) {
        (60, _) => b'\n',
        (_, 0) => b'A',
        (_, 1) => b'c',
        (_, 2) => b'G',
        _ => b't',
    }
}

// The text as an array.
fn laid() -> [u8; SIZE] {
    let mut text = [b' '; SIZE];
    text[..FIRST].copy_from_slice(FRONT);
    for (i, letter) in text[FIRST..END].iter_mut().enumerate() {
        *letter = row(i);
    }
    text[END..].copy_from_slice(BACK);
    text
}

// With the last letter blank: as many letters as a ring may have.
fn full(out: &mut Out, mut text: [u8; SIZE]) {
    text[LAST] = b' ';
    walk(out, b"8,192 letters, and a room for them", &text, MOST);
    walk(
        out,
        b"4: 8,192 letters, and a room of 8,191",
        &text,
        MOST - 1,
    );
    text[LAST - 1] = b'N';
    walk(out, b"3: the last of 8,192 letters", &text, MOST);
    walk(out, b"3 before 4: and a room of 0", &text, 0);
}

// With every letter: one more than a ring may have.
fn beyond(out: &mut Out, mut text: [u8; SIZE]) {
    walk(out, b"2: 8,193 letters", &text, MOST + 1);
    text[FIRST] = b'N';
    walk(
        out,
        b"2 before 3: and the first letter is no base",
        &text,
        MOST + 1,
    );
    text[LAST] = b'>';
    walk(out, b"2 before 3 and 4: and the last is a mark", &text, 2);
    text[0] = b'A';
    walk(
        out,
        b"8 before 2, 3 and 4: and a letter line before the header",
        &text,
        2,
    );
}

// Both over one text, laid once.
pub fn records(out: &mut Out) {
    let text = laid();
    full(out, text);
    beyond(out, text);
}
