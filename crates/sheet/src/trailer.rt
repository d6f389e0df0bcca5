// The trailer of a sheet: read from the end of lent bytes, and written behind a sheet's letters.
ghost use Rattle.std.specs.Prelude.{◌≡◌, ◌+◌, ◌≤◌, length, take, drop, IfOk};
ghost use Rattle.ring.specs.Judging.{over};
ghost use Rattle.ring.specs.Numbered.{strand_number};
ghost use Rattle.sheet.specs.Sheet.{trailer_size, trailer_of};
ghost use Rattle.sheet.specs.Trailer.{form_of, points_in, found_of};
ghost use Rattle.sheet.specs.Told.{told_check, found_told};

use super::outcome::Sheet;
use super::refusals::Refusal;
use ring::{Kind, Marks};

// A trailer's bytes: two for the way back and two for the key's start, low byte first, the strand, the kind and the tag.
pub const SIZE: usize = 8;

// The tag, a trailer's last two bytes.
const TAG_FIRST: u8 = 0x52;

const TAG_LAST: u8 = 0x47;

// What a trailer points to: n letters behind the bytes before, and the marks that it has for them, strand and kind by their numbers as the
// ring rules are told them.
#[derive(Clone, Copy)]
pub struct Points {
    pub n: usize,
    pub start: usize,
    pub strand: u8,
    pub kind: u8,
    pub before: usize,
}

impl Points {
    // What the trailer at the end of these bytes points to, by the rules in the order 5, 6, 1, 2, 5; a kind that is none has no strand.
    pub fn at_end(bytes: &[u8]) -> Result<Points, Refusal>
        ensures form { told_check result ≡ record { number = form_of bytes.now; place = 0 } }
        ensures points { IfOk result (λ p. (p ≡ points_in bytes.now) × (p.before + p.n ≤ length bytes.now)) }
    {
        let Some((front, trailer)) = bytes.split_last_chunk::<SIZE>() else {
            return Err(Refusal::Torn);
        };
        let [n0, n1, start0, start1, strand, kind, tag0, tag1] = *trailer;
        if tag0 != TAG_FIRST || tag1 != TAG_LAST || ring::strands_of(kind) <= strand {
            return Err(Refusal::WrongMarks);
        }
        let n = u16::from_le_bytes([n0, n1]) as usize;
        if n == 0 {
            return Err(Refusal::NoLetters);
        }
        if ring::MOST < n {
            return Err(Refusal::TooManyLetters);
        }
        if front.len() < n {
            return Err(Refusal::Torn);
        }
        Ok(Points {
            n,
            start: u16::from_le_bytes([start0, start1]) as usize,
            strand,
            kind,
            before: front.len() - n,
        })
    }

    // The letters that the trailer of these bytes points to.
    pub fn letters(self, bytes: &[u8]) -> &[u8]
        requires { self.before + self.n ≤ length bytes.now }
        ensures { result.now ≡ take self.n (drop self.before bytes.now) }
    {
        &bytes[self.before..self.before + self.n]
    }
}

// What stands at the end of the bytes: the trailer's rules, then 3 and 7 by the ring rules.
pub fn trailer(bytes: &[u8]) -> Result<Sheet, Refusal>
    ensures { found_told result ≡ found_of bytes.now }
{
    let p = Points::at_end(bytes)?;
    let marks = ring::check_key(p.letters(bytes), p.kind, p.start, p.strand)?;
    let kind = Kind::try_from(p.kind)?;
    Ok(Sheet {
        marks,
        kind,
        before: p.before,
    })
}

// Writes a trailer to the front of a room; `kind` is its byte.
pub fn put_trailer(room: &mut [u8], m: &Marks, kind: u8)
    requires { trailer_size ≤ length room.old }
    ensures { room.new ≡ over (trailer_of m.now.n m.now.start (strand_number m.now.strand) kind) room.old }
{
    let [n0, n1, ..] = m.n.to_le_bytes();
    let [start0, start1, ..] = m.start.to_le_bytes();
    let strand = u8::from(m.strand);
    room[..SIZE].copy_from_slice(&[n0, n1, start0, start1, strand, kind, TAG_FIRST, TAG_LAST]);
}
