// The catalogue sheet written and read, its letters, its deposit's original, and a book walked.
ghost use Rattle.std.specs.Prelude.{◌≡◌, length};
ghost use Rattle.sheet.specs.Sheet.{written_of, written_room};
ghost use Rattle.sheet.specs.Reader.{entry_of, part_of, original_of, original_room};
ghost use Rattle.sheet.specs.Book.{walked_of};
ghost use Rattle.probe.specs.Told.{told, marked_fields, checked_fields, entry_fields, part_fields, walked_fields};

use super::tell::{put, tell};
use ring::{Checked, Marked};
use sheet::{Entry, Walked};

#[unsafe(no_mangle)]
pub extern "C" fn probe_sheet_write(
    kind: u8,
    ring: &[u8],
    room: &mut [u8],
    values: &mut [u64],
) -> u8
    ensures value { result ≡ (written_of kind ring.now (length room.old)).number }
    ensures values_after { values.new ≡ told (marked_fields (written_of kind ring.now (length room.old))) values.old }
    ensures room_after { room.new ≡ written_room kind ring.now room.old }
{
    tell(values, &Marked::from(sheet::write(ring, kind, room)))
}

#[unsafe(no_mangle)]
pub extern "C" fn probe_sheet_read(bytes: &[u8], values: &mut [u64]) -> u8
    ensures value { result ≡ (entry_of bytes.now).marked.number }
    ensures values_after { values.new ≡ told (entry_fields (entry_of bytes.now)) values.old }
{
    tell(values, &Entry::from(sheet::read(bytes)))
}

// The part is told by its offset from the front of the bytes and by its length; the number is that of the reading.
#[unsafe(no_mangle)]
pub extern "C" fn probe_sheet_letters(bytes: &[u8], values: &mut [u64]) -> u8
    ensures value { result ≡ (entry_of bytes.now).marked.number }
    ensures values_after { values.new ≡ told (part_fields (entry_of bytes.now) (part_of bytes.now)) values.old }
{
    let entry = Entry::from(sheet::read(bytes));
    let size = sheet::letters(bytes).len();
    put(values, &[entry.before as u64, size as u64]);
    entry.marked.number
}

#[unsafe(no_mangle)]
pub extern "C" fn probe_sheet_original(bytes: &[u8], room: &mut [u8], values: &mut [u64]) -> u8
    ensures value { result ≡ (original_of bytes.now (length room.old)).number }
    ensures values_after { values.new ≡ told (checked_fields (original_of bytes.now (length room.old))) values.old }
    ensures room_after { room.new ≡ original_room bytes.now room.old }
{
    // `Checked` is the ring's, and so no crate but the ring's gives a `From` of a `Result` for it.
    let checked = match sheet::original(bytes, room) {
        Ok(()) => Checked {
            number: 0,
            place: 0,
        },
        Err(refusal) => Checked::from(refusal),
    };
    tell(values, &checked)
}

#[unsafe(no_mangle)]
pub extern "C" fn probe_sheet_walk(book: &[u8], values: &mut [u64]) -> u8
    ensures value { result ≡ (walked_of book.now).number }
    ensures values_after { values.new ≡ told (walked_fields (walked_of book.now)) values.old }
{
    tell(values, &Walked::from(sheet::walk(book)))
}
