// The calls that write a key to one of two rooms, with short ones.
use super::calls::{LENT, SHORT};
use ring::Marked;
use shown::{Out, middle};

// A call lent two rooms, of `one` and of `two` bytes: what it prints, and each room with a byte before the lent ones and one behind.
fn lent<F: FnOnce(&mut Out, &mut [u8], &mut [u8])>(
    out: &mut Out,
    name: &[u8],
    one: usize,
    two: usize,
    call: F,
)
    requires { F.IsAlwaysCallable call }
{
    if LENT < one || LENT < two {
        return;
    }
    let mut first = [b'.'; SHORT];
    let mut second = [b'.'; SHORT];
    out.text(name);
    call(out, middle(&mut first, one), middle(&mut second, two));
    out.text(b" :");
    out.letters(&first[..one + 2]);
    out.letters(&second[..two + 2]);
    out.line();
}

// The key's marks.
pub fn write_key(out: &mut Out, ring: &[u8], kind: u8, one: usize, two: usize) {
    lent(out, b"write_key", one, two, |out, first, second| {
        out.answer(Marked::from(ring::write_key(ring, kind, first, second)));
    });
}

// The key's letters: the part that came back, with a star put on its first letter.
pub fn key(out: &mut Out, ring: &[u8], kind: u8, one: usize, two: usize) {
    lent(out, b"key", one, two, |out, first, second| {
        starred(out, ring::key(ring, kind, first, second));
    });
}

fn starred(out: &mut Out, part: &mut [u8]) {
    out.text(b" :");
    out.letters(part);
    if let Some(first) = part.first_mut() {
        *first = b'*';
    }
}
