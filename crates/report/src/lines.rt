// The five lines that are printed for a ring.
ghost use Rattle.std.specs.Prelude.{◌≡◌, ◌≤◌, false, length, Ok, IfOk};
ghost use Rattle.ring.specs.Judging.{over, after, verdict};
ghost use Rattle.ring.specs.Answers.{checked_of};
ghost use Rattle.ring.specs.Told.{told_check};
ghost use Rattle.report.specs.Decimal.{row_room};
ghost use Rattle.report.specs.Report.{table_room, key_room, roomy, Printable, head_line, factor_line, suffix_line, start_line, key_line, five_lines};

use super::decimal::put_row;
use super::sizes::LONGEST;
use ring::{Kind, Refusal};

// The kind of the rings that are printed, a number, as the ring's calls take it; a `const` takes no `From`, so it is cast.
const BASE: u8 = Kind::Base as u8;

// Line 1: 0, n, the start, the repeat, the pairs.
fn put_head(room: &mut [u8], ring: &[u8]) -> Result<usize, Refusal>
    requires { Printable ring.now × (row_room 5 ≤ length room.old) }
    ensures value { (result ≡ Ok (length (head_line ring.now))) × (length (head_line ring.now) ≤ row_room 5) }
    ensures room_after { room.new ≡ over (head_line ring.now) room.old }
{
    let duels = ring::duel(ring, BASE)?;
    let repeat = ring::repeat(ring, BASE)?;
    let numbers = [
        0,
        ring.len() as u16,
        duels.start as u16,
        repeat as u16,
        duels.pairs as u16,
    ];
    Ok(put_row(room, &numbers, b'\n'))
}

// Each line has a function that is lent a printable ring by `put_lines` alone, which has judged it; a type for one would be made and opened once.
// Lines 2 to 4 have a function each: the contract of one that is passed the call would have to say what the call writes. Each stays a call in
// the built code, so that only one table stands on the stack at a time.

// Line 2: the factor table.
#[inline(never)]
fn put_factors(room: &mut [u8], ring: &[u8]) -> Result<usize, Refusal>
    requires { Printable ring.now × (table_room ≤ length room.old) }
    ensures value { (result ≡ Ok (length (factor_line ring.now))) × (length (factor_line ring.now) ≤ table_room) }
    ensures room_after { room.new ≡ over (factor_line ring.now) room.old }
{
    let mut table = [0; LONGEST];
    let factors = ring::factors(ring, BASE, &mut table)?;
    Ok(put_row(room, &table[..factors.count], b'\n'))
}

// Line 3: the suffix table.
#[inline(never)]
fn put_suffixes(room: &mut [u8], ring: &[u8]) -> Result<usize, Refusal>
    requires { Printable ring.now × (table_room ≤ length room.old) }
    ensures value { (result ≡ Ok (length (suffix_line ring.now))) × (length (suffix_line ring.now) ≤ table_room) }
    ensures room_after { room.new ≡ over (suffix_line ring.now) room.old }
{
    let mut table = [0; LONGEST];
    ring::suffixes(ring, BASE, &mut table)?;
    Ok(put_row(room, &table[..ring.len()], b'\n'))
}

// Line 4: the start table.
#[inline(never)]
fn put_starts(room: &mut [u8], ring: &[u8]) -> Result<usize, Refusal>
    requires { Printable ring.now × (table_room ≤ length room.old) }
    ensures value { (result ≡ Ok (length (start_line ring.now))) × (length (start_line ring.now) ≤ table_room) }
    ensures room_after { room.new ≡ over (start_line ring.now) room.old }
{
    let mut table = [0; LONGEST];
    ring::starts(ring, BASE, &mut table)?;
    Ok(put_row(room, &table[..ring.len()], b'\n'))
}

// Line 5: the key's strand, its start, and the key.
fn put_key(room: &mut [u8], ring: &[u8]) -> Result<usize, Refusal>
    requires { Printable ring.now × (key_room ≤ length room.old) }
    ensures value { (result ≡ Ok (length (key_line ring.now))) × (length (key_line ring.now) ≤ key_room) }
    ensures room_after { room.new ≡ over (key_line ring.now) room.old }
{
    let mut letters = [0; LONGEST];
    let marks = ring::write_letters(ring, BASE, &mut letters)?;
    let numbers = [u16::from(u8::from(marks.strand)), marks.start as u16];
    let at = put_row(room, &numbers, b' ');
    let end = at + marks.n;
    room[at..end].copy_from_slice(&letters[..marks.n]);
    room[end] = b'\n';
    Ok(end + 1)
}

// All five, one behind another; a ring that is refused leaves the room as it was.
pub fn put_lines(room: &mut [u8], ring: &[u8]) -> Result<usize, Refusal>
    requires { roomy ≤ length room.old }
    ensures judged { told_check result ≡ checked_of 1 ring.now }
    ensures value { IfOk result (λ size. (size ≡ length (five_lines ring.now)) × (size ≤ roomy)) }
    ensures room_after { room.new ≡ after (verdict 1 ring.now false) (five_lines ring.now) room.old }
{
    ring::check(ring, BASE)?;
    let mut at = put_head(room, ring)?;
    at += put_factors(&mut room[at..], ring)?;
    at += put_suffixes(&mut room[at..], ring)?;
    at += put_starts(&mut room[at..], ring)?;
    at += put_key(&mut room[at..], ring)?;
    Ok(at)
}
