// The key of a ring, written to lent rooms and handed back as a part of one.
ghost use Rattle.std.specs.Prelude.{◌≡◌, cond, length};
ghost use Rattle.ring.specs.Told.{told_marks};
ghost use Rattle.ring.specs.Answers.{rooms_short, keyed_of, first_room, second_room, key_part, in_second};

use super::judge::judge;
use super::kind::strands_of;
use super::marking::{Strands, marks_of};
use super::outcome::Marks;
use super::reading::put_reading;
use super::refusals::Refusal;
use super::side::Side;
use super::strand::Strand;

// Whether a room that the key needs has fewer entries than the ring: the first, and for a kind with two strands the second too. The kind is the
// number that the caller told, before it is judged.
fn short_rooms(kind: u8, n: usize, first: usize, second: usize) -> bool
    ensures { result ≡ rooms_short kind n first second }
{
    if first < n {
        return true;
    }
    if strands_of(kind) == 2 {
        return second < n;
    }
    false
}

// The lowest reading as given to the first room, that of the opposite strand to the second, and the key's marks.
pub fn write_key(
    ring: &[u8],
    kind: u8,
    first: &mut [u8],
    second: &mut [u8],
) -> Result<Marks, Refusal>
    ensures value { told_marks result ≡ keyed_of kind ring.now (length first.old) (length second.old) }
    ensures first_after { first.new ≡ first_room kind ring.now first.old (length second.old) }
    ensures second_after { second.new ≡ second_room kind ring.now (length first.old) second.old }
{
    let n = ring.len();
    let short = short_rooms(kind, n, first.len(), second.len());
    let kind = judge(ring, kind, short)?;
    if kind.has_opposite() {
        let s = Strands::read(ring);
        put_reading(&Side::given(ring), s.own, first);
        put_reading(&Side::opposite(ring), s.other, second);
        return Ok(s.marks(n));
    }
    let marks = marks_of(ring, kind);
    put_reading(&Side::given(ring), marks.start, first);
    Ok(marks)
}

// The key as a part of the room that holds it; a refused call hands back the empty front of the first room, as 01 has it.
pub fn key<'a>(ring: &[u8], kind: u8, first: &'a mut [u8], second: &'a mut [u8]) -> &'a mut [u8]
    ensures value { result.now ≡ key_part kind ring.now (length first.old) (length second.old) }
    ensures stands { result.ref_ptr ≡ cond (in_second kind ring.now (length first.old) (length second.old)) second.entry.ref_ptr first.entry.ref_ptr }
{
    let Ok(marks) = write_key(ring, kind, first, second) else {
        return &mut first[..0];
    };
    match marks.strand {
        Strand::Given => &mut first[..marks.n],
        Strand::Opposite => &mut second[..marks.n],
    }
}
