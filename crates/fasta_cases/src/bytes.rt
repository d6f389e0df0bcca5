// Every byte at one place of a text: which bytes give which number.
use fasta::Record;
use shown::Out;

// The byte `b` at `at`, with the letters kept, where the text then gives `number`.
fn given(out: &mut Out, text: &mut [u8], at: usize, b: u8, number: u8) {
    if let Some(place) = text.get_mut(at) {
        *place = b;
    }
    let mut room = [b'.'; 8];
    let record = Record::from(fasta::record(text, &mut room));
    if record.number != number {
        return;
    }
    out.letters(&[b]);
    match room.get(..record.n) {
        Some(kept) if !kept.is_empty() => out.letters(kept),
        _ => {}
    }
}

// The bytes that give `number` at `at`.
fn giving(out: &mut Out, text: &mut [u8], at: usize, number: u8) {
    out.labelled(b"number", number);
    out.text(b" :");
    for b in 0..=255 {
        given(out, text, at, b, number);
    }
    out.line();
}

// The text, and the bytes that give each number at `at`.
fn each(out: &mut Out, text: &mut [u8], at: usize) {
    out.text(b"Every byte for ? in");
    out.letters(text);
    out.line();
    for number in [0, 1, 3, 8] {
        giving(out, text, at, number);
    }
}

// A line of one byte, ended by LF.
pub fn alone(out: &mut Out) {
    let mut text = *b">a\n?\n";
    each(out, &mut text, 3);
}

// Between two letters.
pub fn between(out: &mut Out) {
    let mut text = *b">a\nA?C\n";
    each(out, &mut text, 4);
}

// The first byte of a text.
pub fn before(out: &mut Out) {
    let mut text = *b"?\n>a\nAC\n";
    each(out, &mut text, 0);
}
