// The catalogue sheet of a ring, written to a lent room.
ghost use Rattle.std.specs.Prelude.{◌≡◌, length};
ghost use Rattle.ring.specs.Told.{told_marks};
ghost use Rattle.sheet.specs.Sheet.{written_of, written_room};

use super::trailer;
use ring::{Marks, Refusal};

// Writes the key's letters and then the trailer: 6, 1, 2, 3, and 4 for fewer bytes than both have. The kind is a number, as the ring's calls are
// told it.
pub fn write(ring: &[u8], kind: u8, room: &mut [u8]) -> Result<Marks, Refusal>
    ensures value { told_marks result ≡ written_of kind ring.now (length room.old) }
    ensures room_after { room.new ≡ written_room kind ring.now room.old }
{
    let space = room.len().saturating_sub(trailer::SIZE);
    let m = ring::write_letters(ring, kind, &mut room[..space])?;
    trailer::put_trailer(&mut room[m.n..], &m, kind);
    Ok(m)
}
