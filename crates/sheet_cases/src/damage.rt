// Sheets and books with one byte changed, and cut short at every place.
use ring::Checked;
use sheet::{Entry, Walked};
use shown::Out;

fn walked(bytes: &[u8]) -> Walked {
    Walked::from(sheet::walk(bytes))
}

// The walk over bytes with the one at `at` changed; they are as before afterwards.
fn damaged<F: FnOnce(u8) -> u8>(bytes: &mut [u8], at: usize, change: F) -> Walked
    requires { F.IsAlwaysCallable change }
{
    if bytes.len() <= at {
        return walked(bytes);
    }
    let old = bytes[at];
    bytes[at] = change(old);
    let answer = walked(bytes);
    bytes[at] = old;
    answer
}

// Every byte one greater in turn: number and place of the walk. The loop goes over places, as each step is lent all bytes.
fn each(out: &mut Out, bytes: &mut [u8]) {
    out.text(b"each byte one greater :");
    for at in 0..bytes.len() {
        let Walked { number, place, .. } = damaged(bytes, at, |b| b.wrapping_add(1));
        out.answer(Checked { number, place });
        out.bar();
    }
    out.line();
}

// How often each number, 0 to 7, comes for the 256 values of the byte at `at`.
fn tally(bytes: &mut [u8], at: usize) -> [usize; 8] {
    let mut counts = [0usize; 8];
    for v in 0..=255 {
        let number = damaged(bytes, at, |_| v).number;
        if let Some(count) = counts.get_mut(usize::from(number)) {
            *count = count.wrapping_add(1);
        }
    }
    counts
}

fn listed(out: &mut Out, counts: [usize; 8]) {
    for count in counts {
        out.number(count);
    }
    out.line();
}

// For each byte: how many of its 256 values give 0, 1, .. 7. The loop goes over places, as each step is lent all bytes.
fn tallies(out: &mut Out, bytes: &mut [u8]) {
    for at in 0..bytes.len() {
        out.labelled(b"values of byte", at);
        out.text(b" :");
        listed(out, tally(bytes, at));
    }
}

// Bytes read as a sheet and walked as a book: number and place, and the sheets walked.
fn both(out: &mut Out, bytes: &[u8]) {
    let marked = Entry::from(sheet::read(bytes)).marked;
    out.answer(Checked {
        number: marked.number,
        place: marked.place,
    });
    out.labelled(b",", walked(bytes));
    out.bar();
}

// What is left without the first 0, 1, .. bytes; `fronts` cuts at the other end.
fn backs(out: &mut Out, bytes: &[u8]) {
    out.text(b"without its first bytes :");
    for at in 0..bytes.len() {
        both(out, &bytes[at..]);
    }
    out.line();
}

// The first 0, 1, .. bytes alone.
fn fronts(out: &mut Out, bytes: &[u8]) {
    out.text(b"its first bytes :");
    for at in 0..bytes.len() {
        both(out, &bytes[..at]);
    }
    out.line();
}

// Bytes damaged one by one, and cut at both ends.
pub fn cut(out: &mut Out, bytes: &mut [u8]) {
    each(out, bytes);
    backs(out, bytes);
    fronts(out, bytes);
}

// A sheet damaged and cut in every way, and every value of each of its bytes.
fn sheet_of(out: &mut Out, ring: &[u8], kind: u8) {
    let mut room = [0u8; 40];
    out.text(b"DAMAGE to the sheet of");
    out.letters(ring);
    out.labelled(b" kind", kind);
    out.line();
    let _ = sheet::write(ring, kind, &mut room);
    if let Some(bytes) = room.get_mut(..ring.len() + 8) {
        cut(out, bytes);
        tallies(out, bytes);
    }
}

pub fn sheets(out: &mut Out) {
    for (ring, kind) in [(&b"GATTACA"[..], 1), (b"CACA", 1), (b"BAB", 0), (b"GAN", 2)] {
        sheet_of(out, ring, kind);
    }
}
