// The letters of a record, from its header's end to the next header: counted and judged, and then written.
ghost use Rattle.std.specs.Prelude.{◌≡◌, ◌≤◌, length};
ghost use Rattle.ring.specs.Judging.{over};
ghost use Rattle.fasta.specs.Bases.{bases_in};
ghost use Rattle.fasta.specs.Scan.{BasesEnd, Counts};

use super::base::Bases;
use super::byte::{header_follows, is_kept};

// How many letters are kept, the first that is no base, where the last base ends, and where the next header stands.
#[derive(Clone, Copy)]
pub struct Counted {
    pub n: usize,
    pub other: Option<usize>,
    pub end: usize,
    pub rest: usize,
}

// The letters of the lines from a header's end to the next header: a base is told by one look into the table.
pub fn count(lines: &[u8], bases: &Bases) -> Counted
    ensures letters { Counts lines.now result.n result.other result.rest }
    ensures bases_end { BasesEnd lines.now result.rest result.end }
{
    let mut n = 0;
    let mut other = None;
    let mut end = 0;
    for (i, b) in lines.iter().enumerate() {
        let behind = &lines[i + 1..];
        if bases.look_up(*b).is_some() {
            n += 1;
            end = i + 1;
        } else if is_kept(*b, behind) {
            other = other.or(Some(n));
            n += 1;
        } else if header_follows(*b, behind) {
            return Counted {
                n,
                other,
                end,
                rest: i + 1,
            };
        }
    }
    Counted {
        n,
        other,
        end,
        rest: lines.len(),
    }
}

// Writes the bases of the lines to the front of a room; a byte that has none is passed over. A zip of the room and the bases found is slower,
// and so is the loop inlined.
#[inline(never)]
pub fn put(lines: &[u8], bases: &Bases, room: &mut [u8])
    requires { length (bases_in lines.now) ≤ length room.old }
    ensures { room.new ≡ over (bases_in lines.now) room.old }
{
    let mut k = 0;
    for b in lines {
        if let Some(base) = bases.look_up(*b) {
            room[k] = base;
            k += 1;
        }
    }
}
