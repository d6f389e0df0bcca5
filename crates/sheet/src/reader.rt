// A catalogue sheet read from the end of lent bytes: its marks, its letters, and the deposit's original letters.
ghost use Rattle.std.specs.Prelude.{◌≡◌, ◌+◌, length};
ghost use Rattle.sheet.specs.Trailer.{Bytes};
ghost use Rattle.sheet.specs.Reader.{entry_of, part_of, original_of, original_room};
ghost use Rattle.sheet.specs.Told.{told_check, told_sheet};

use super::outcome::Sheet;
use super::refusals::Refusal;
use super::trailer::{self, Points};

// The sheet's marks and kind, and how many bytes stand before it.
pub fn read(bytes: &[u8]) -> Result<Sheet, Refusal>
    ensures value { told_sheet result ≡ entry_of bytes.now }
    ensures lent { Bytes bytes.now }
{
    trailer::trailer(bytes)
}

// The letters between the pointed place and the trailer, or an empty part at the front, as 01 has it. It has the trailer's answer, not its
// points, so it cuts them itself.
pub fn letters(bytes: &[u8]) -> &[u8]
    ensures value { result.now ≡ part_of bytes.now }
    ensures stands { (result.ref_ptr.0 ≡ bytes.entry.ref_ptr.0) × (result.ref_ptr.1 ≡ bytes.entry.ref_ptr.1 + (entry_of bytes.now).before) }
{
    let Ok(Sheet { marks, before, .. }) = trailer::trailer(bytes) else {
        return &bytes[..0];
    };
    &bytes[before..before + marks.n]
}

// Writes the deposit's original letters to a lent room: the sheet's numbers, then 4.
pub fn original(bytes: &[u8], room: &mut [u8]) -> Result<(), Refusal>
    ensures value { told_check result ≡ original_of bytes.now (length room.old) }
    ensures room_after { room.new ≡ original_room bytes.now room.old }
{
    let p = Points::at_end(bytes)?;
    ring::write_deposit(p.letters(bytes), p.kind, p.start, p.strand, room)?;
    Ok(())
}
