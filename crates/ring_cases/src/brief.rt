// Every call on one line, for rings of any length: the answers, and behind each lent table or room = where it stayed as it
// was lent and ! where it was written.
use ring::{Checked, Factored, Fought, MOST, Marked, Repeated};
use shown::{FRESH, Out, middle};
use std::fmt::Display;

// The entries of a room or table, of which one more than a sheet of the longest ring is lent, with one before and some behind.
const ROOM: usize = MOST + 20;

// = where every entry still is as it was lent, and else !.
fn kept<T: PartialEq>(out: &mut Out, lent: &[T], fresh: &T) {
    out.text(if lent.iter().all(|v| v == fresh) {
        b" ="
    } else {
        b" !"
    });
}

// A bar, and the answer of a call that is lent `size` entries of a fresh room or table. The room is made where its type is known, so
// that its size is.
fn lent<T: PartialEq, A: Display + Drop, F: FnOnce(&mut [T]) -> A>(
    out: &mut Out,
    room: &mut [T],
    fresh: &T,
    size: usize,
    call: F,
)
    requires { F.IsAlwaysCallable call }
{
    out.bar();
    out.answer(call(middle(room, size)));
    kept(out, room, fresh);
}

// A bar, and the answer of a call that is lent two rooms of `size` bytes: a call of another shape, so not the function above.
fn lent_two<A: Display + Drop, F: FnOnce(&mut [u8], &mut [u8]) -> A>(
    out: &mut Out,
    size: usize,
    call: F,
)
    requires { F.IsAlwaysCallable call }
{
    let mut first = [b'.'; ROOM];
    let mut second = [b'.'; ROOM];
    out.bar();
    out.answer(call(middle(&mut first, size), middle(&mut second, size)));
    kept(out, &first, &b'.');
    kept(out, &second, &b'.');
}

// The calls that are lent nothing.
fn plain(out: &mut Out, ring: &[u8], kind: u8) {
    out.answer(Checked::from(ring::check(ring, kind)));
    out.bar();
    out.answer(Fought::from(ring::duel(ring, kind)));
    out.bar();
    out.answer(Repeated::from(ring::repeat(ring, kind)));
    out.bar();
    out.answer(Marked::from(ring::mark(ring, kind)));
}

// The calls that fill a table.
fn tables(out: &mut Out, ring: &[u8], kind: u8, size: usize) {
    lent(out, &mut [FRESH; ROOM], &FRESH, size, |table| {
        Factored::from(ring::factors(ring, kind, table))
    });
    lent(out, &mut [FRESH; ROOM], &FRESH, size, |table| {
        Checked::from(ring::suffixes(ring, kind, table))
    });
    lent(out, &mut [FRESH; ROOM], &FRESH, size, |table| {
        Checked::from(ring::starts(ring, kind, table))
    });
}

// The calls that write to one room; the ring's own letters are judged as a key at start 0 of strand 0.
fn letters(out: &mut Out, ring: &[u8], kind: u8, size: usize) {
    lent(out, &mut [b'.'; ROOM], &b'.', size, |room| {
        Marked::from(ring::write_letters(ring, kind, room))
    });
    out.bar();
    out.answer(Marked::from(ring::check_key(ring, kind, 0, 0)));
    lent(out, &mut [b'.'; ROOM], &b'.', size, |room| {
        Marked::from(ring::write_deposit(ring, kind, 0, 0, room))
    });
}

// The sheet, whose room has 8 bytes more than the others.
fn sheet(out: &mut Out, ring: &[u8], kind: u8, size: usize) {
    let size = size.saturating_add(8);
    lent(out, &mut [b'.'; ROOM], &b'.', size, |room| {
        Marked::from(sheet::write(ring, kind, room))
    });
}

// The calls that write a key to one of two rooms, and how many letters come back.
fn keys(out: &mut Out, ring: &[u8], kind: u8, size: usize) {
    lent_two(out, size, |first, second| {
        Marked::from(ring::write_key(ring, kind, first, second))
    });
    lent_two(out, size, |first, second| {
        ring::key(ring, kind, first, second).len()
    });
}

// The answers in the order check, duel, repeat, mark, factors, suffixes, starts, write_letters, check_key, write_deposit,
// write_key, key, write.
pub fn brief(out: &mut Out, ring: &[u8], kind: u8, size: usize) {
    out.text(b"EDGE");
    out.named(ring);
    out.labelled(b" kind", kind);
    out.labelled(b" room", size);
    out.line();
    plain(out, ring, kind);
    tables(out, ring, kind, size);
    letters(out, ring, kind, size);
    keys(out, ring, kind, size);
    sheet(out, ring, kind, size);
    out.line();
}
