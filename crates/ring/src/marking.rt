// The key's marks: both strands of a ring read, and the strand that holds the key.
ghost use Rattle.std.specs.Prelude.{◌≡◌, ◌<◌, length, Ok};
ghost use Rattle.words.specs.Keys.Strand.{key_start, strand};
ghost use Rattle.ring.specs.Numbered.{kind_number, strand_number};
ghost use Rattle.ring.specs.Strands.{both_strands, marked_on};
ghost use Rattle.ring.specs.Told.{told_marks};
ghost use Rattle.ring.specs.Answers.{done_with, refusal_of, marked_of, lettered_of, lettered_room};

use super::answer::Marked;
use super::judge::judge;
use super::kind::Kind;
use super::outcome::Marks;
use super::reading::{lower, put_reading};
use super::refusals::Refusal;
use super::side::Side;
use super::start::start_of;
use super::strand::Strand;

// A ring with two strands: the start as given, the start of the opposite strand, and the strand that holds the key.
#[derive(Clone, Copy)]
pub struct Strands {
    pub own: usize,
    pub other: usize,
    pub strand: Strand,
}

impl Strands {
    // Both strands read; on a tie the key is on strand 0.
    pub fn read(ring: &[u8]) -> Strands
        requires { 0 < length ring.now }
        ensures value { result ≡ both_strands ring.now }
        ensures inside { (result.own < length ring.now) × (result.other < length ring.now) }
    {
        let given = Side::given(ring);
        let opposite = Side::opposite(ring);
        let own = start_of(&given);
        let other = start_of(&opposite);
        let strand = if lower(&opposite, other, &given, own) {
            Strand::Opposite
        } else {
            Strand::Given
        };
        Strands { own, other, strand }
    }

    // The marks of a key of `n` letters on the strand that holds it.
    pub fn marks(self, n: usize) -> Marks
        ensures { told_marks (Ok result) ≡ marked_on self n }
    {
        let start = match self.strand {
            Strand::Given => self.own,
            Strand::Opposite => self.other,
        };
        Marks {
            n,
            start,
            strand: self.strand,
        }
    }
}

// A refused answer in numbers, for C and for a library above that refuses by a number of its own.
pub fn refusal(number: u8, place: usize) -> Marked
    ensures { result ≡ refusal_of number place }
{
    Marked {
        number,
        place,
        n: 0,
        start: 0,
        strand: 0,
    }
}

// The marks of a ring that has letters.
pub fn marks_of(ring: &[u8], kind: Kind) -> Marks
    requires { 0 < length ring.now }
    ensures value { told_marks (Ok result) ≡ done_with (length ring.now) (key_start (kind_number kind) ring.now) (strand (kind_number kind) ring.now) }
    ensures inside { result.start < length ring.now }
{
    let n = ring.len();
    if kind.has_opposite() {
        return Strands::read(ring).marks(n);
    }
    Marks {
        n,
        start: start_of(&Side::given(ring)),
        strand: Strand::Given,
    }
}

// How many letters the key has, its start and its strand.
pub fn mark(ring: &[u8], kind: u8) -> Result<Marks, Refusal>
    ensures { told_marks result ≡ marked_of kind ring.now }
{
    let kind = judge(ring, kind, false)?;
    Ok(marks_of(ring, kind))
}

// The same, with the key's letters written to one room: 4 for fewer entries than letters.
pub fn write_letters(ring: &[u8], kind: u8, room: &mut [u8]) -> Result<Marks, Refusal>
    ensures value { told_marks result ≡ lettered_of kind ring.now (length room.old) }
    ensures room_after { room.new ≡ lettered_room kind ring.now room.old }
{
    let kind = judge(ring, kind, room.len() < ring.len())?;
    let marks = marks_of(ring, kind);
    put_reading(&Side::new(ring, marks.strand), marks.start, room);
    Ok(marks)
}
