// The calls that fill a table, on a short one.
use super::calls::{LENT, SHORT};
use ring::{Checked, Factored};
use shown::{FRESH, Out, middle};
use std::fmt::Display;

// A call lent a table of `size` entries: its answer, and the table with an entry before the lent ones and one behind.
fn table<A: Display + Drop, F: FnOnce(&mut [u16]) -> A>(
    out: &mut Out,
    name: &[u8],
    size: usize,
    call: F,
)
    requires { F.IsAlwaysCallable call }
{
    if LENT < size {
        return;
    }
    let mut lent = [FRESH; SHORT];
    out.labelled(name, call(middle(&mut lent, size)));
    out.text(b" :");
    out.entries(&lent[..size + 2]);
    out.line();
}

pub fn factors(out: &mut Out, ring: &[u8], kind: u8, size: usize) {
    table(out, b"factors", size, |table| {
        Factored::from(ring::factors(ring, kind, table))
    });
}

pub fn suffixes(out: &mut Out, ring: &[u8], kind: u8, size: usize) {
    table(out, b"suffixes", size, |table| {
        Checked::from(ring::suffixes(ring, kind, table))
    });
}

pub fn starts(out: &mut Out, ring: &[u8], kind: u8, size: usize) {
    table(out, b"starts", size, |table| {
        Checked::from(ring::starts(ring, kind, table))
    });
}
