// The key of a ring, its letters written, and the comparison.
ghost use Rattle.std.specs.Prelude.{◌≡◌, length};
ghost use Rattle.words.specs.Keys.Kind.{strands};
ghost use Rattle.ring.specs.Answers.{marked_of, refusal_of, lettered_of, lettered_room, keyed_of, first_room, second_room, key_part, compared_of};
ghost use Rattle.probe.specs.Told.{told, marked_fields, compared_fields, key_fields};

use super::tell::{put, tell};
use ring::{Compared, Marked};

#[unsafe(no_mangle)]
pub extern "C" fn probe_mark(kind: u8, ring: &[u8], values: &mut [u64]) -> u8
    ensures value { result ≡ (marked_of kind ring.now).number }
    ensures values_after { values.new ≡ told (marked_fields (marked_of kind ring.now)) values.old }
{
    tell(values, &Marked::from(ring::mark(ring, kind)))
}

// A refused answer with this number and place.
#[unsafe(no_mangle)]
pub extern "C" fn probe_refusal(number: u8, place: usize, values: &mut [u64]) -> u8
    ensures value { result ≡ (refusal_of number place).number }
    ensures values_after { values.new ≡ told (marked_fields (refusal_of number place)) values.old }
{
    tell(values, &ring::refusal(number, place))
}

#[unsafe(no_mangle)]
pub extern "C" fn probe_write_letters(
    kind: u8,
    ring: &[u8],
    room: &mut [u8],
    values: &mut [u64],
) -> u8
    ensures value { result ≡ (lettered_of kind ring.now (length room.old)).number }
    ensures values_after { values.new ≡ told (marked_fields (lettered_of kind ring.now (length room.old))) values.old }
    ensures room_after { room.new ≡ lettered_room kind ring.now room.old }
{
    tell(values, &Marked::from(ring::write_letters(ring, kind, room)))
}

#[unsafe(no_mangle)]
pub extern "C" fn probe_write_key(
    kind: u8,
    ring: &[u8],
    first: &mut [u8],
    second: &mut [u8],
    values: &mut [u64],
) -> u8
    ensures value { result ≡ (keyed_of kind ring.now (length first.old) (length second.old)).number }
    ensures values_after { values.new ≡ told (marked_fields (keyed_of kind ring.now (length first.old) (length second.old))) values.old }
    ensures first_after { first.new ≡ first_room kind ring.now first.old (length second.old) }
    ensures second_after { second.new ≡ second_room kind ring.now (length first.old) second.old }
{
    let marked = Marked::from(ring::write_key(ring, kind, first, second));
    tell(values, &marked)
}

// The part is told by its room, 0 the first and 1 the second, and by its length; it stands at the front of its room.
#[unsafe(no_mangle)]
pub extern "C" fn probe_key(
    kind: u8,
    ring: &[u8],
    first: &mut [u8],
    second: &mut [u8],
    values: &mut [u64],
) -> u8
    ensures value { result ≡ (keyed_of kind ring.now (length first.old) (length second.old)).number }
    ensures values_after { values.new ≡ told (key_fields (keyed_of kind ring.now (length first.old) (length second.old)) (key_part kind ring.now (length first.old) (length second.old))) values.old }
{
    let marked = Marked::from(ring::write_key(ring, kind, first, second));
    let size = ring::key(ring, kind, first, second).len();
    put(values, &[u64::from(marked.strand), size as u64]);
    marked.number
}

// How many strands rings of a kind have, 0 for a kind that is none.
#[unsafe(no_mangle)]
pub extern "C" fn probe_strands_of(kind: u8) -> u8
    ensures { result ≡ strands kind }
{
    ring::strands_of(kind)
}

#[unsafe(no_mangle)]
pub extern "C" fn probe_compare(kind: u8, first: &[u8], second: &[u8], values: &mut [u64]) -> u8
    ensures value { result ≡ (compared_of kind first.now second.now).number }
    ensures values_after { values.new ≡ told (compared_fields (compared_of kind first.now second.now)) values.old }
{
    tell(values, &Compared::from(ring::compare(first, second, kind)))
}
