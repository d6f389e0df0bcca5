// Every call of `ring` on a short ring: its answer, and what it was lent with an entry before and one behind. A ring and its kind stay
// two parameters, as every call of `ring` takes them.
use super::keys::{key, write_key};
use super::letters::written;
use super::tables::{factors, starts, suffixes};
use super::turns::{opposite, turn};
use ring::{Checked, Compared, Fought, Marked, Repeated};
use shown::{Out, middle};
use std::fmt::Display;

// The entries of a short room or table.
pub const SHORT: usize = 32;

// How many of them may be lent, with one before and one behind. A call asks where it lends: a `requires` would ask every case of a
// loop for its size.
pub const LENT: usize = SHORT - 2;

// A call that is lent nothing.
fn call(out: &mut Out, name: &[u8], answer: impl Display + Drop) {
    out.labelled(name, answer);
    out.line();
}

// The key's letters judged, and turned back into the ring.
fn write_deposit(out: &mut Out, key: &[u8], kind: u8, start: usize, strand: u8) {
    let n = key.len();
    if LENT < n {
        return;
    }
    let judged = Marked::from(ring::check_key(key, kind, start, strand));
    call(out, b"check_key", judged);
    let mut room = [b'.'; SHORT];
    let lent = middle(&mut room, n);
    let written = Marked::from(ring::write_deposit(key, kind, start, strand, lent));
    out.labelled(b"write_deposit", written);
    out.text(b" :");
    out.letters(&room[..n + 2]);
    out.line();
}

// The key made, and the ring had back from it.
fn back(out: &mut Out, ring: &[u8], kind: u8) {
    let mut room = [0u8; SHORT];
    let m = Marked::from(ring::write_letters(ring, kind, &mut room));
    if let Some(key) = room.get(..ring.len()) {
        write_deposit(out, key, kind, m.start, m.strand);
    }
}

pub fn compare(out: &mut Out, first: &[u8], second: &[u8], kind: u8) {
    out.text(b"compare");
    out.letters(first);
    out.letters(second);
    out.labelled(b" :", Compared::from(ring::compare(first, second, kind)));
    out.line();
}

// The ring against its own turns by one letter, of its strand and of the opposite one.
fn turned(out: &mut Out, ring: &[u8], kind: u8) {
    let mut room = [0u8; SHORT];
    let Some(other) = room.get_mut(..ring.len()) else {
        return;
    };
    other.copy_from_slice(ring);
    turn(other);
    compare(out, ring, other, kind);
    other.copy_from_slice(ring);
    opposite(other);
    turn(other);
    compare(out, ring, other, kind);
}

// Every call on one ring, with tables and rooms of just n entries.
pub fn every(out: &mut Out, ring: &[u8], kind: u8) {
    let n = ring.len();
    out.text(b"RING");
    out.letters(ring);
    out.labelled(b" kind", kind);
    out.line();
    call(out, b"check", Checked::from(ring::check(ring, kind)));
    factors(out, ring, kind, n);
    suffixes(out, ring, kind, n);
    starts(out, ring, kind, n);
    call(out, b"duel", Fought::from(ring::duel(ring, kind)));
    call(out, b"repeat", Repeated::from(ring::repeat(ring, kind)));
    call(out, b"mark", Marked::from(ring::mark(ring, kind)));
    out.text(b"write_letters");
    written(out, ring, kind, n);
    out.line();
    back(out, ring, kind);
    write_key(out, ring, kind, n, n);
    key(out, ring, kind, n, n);
    compare(out, ring, ring, kind);
    turned(out, ring, kind);
}
