// A FASTA record found and read: its letters in the room, and where its header and the text that remains stand.
ghost use Rattle.std.specs.Prelude.{◌≡◌, length};
ghost use Rattle.fasta.specs.Parts.{header_of, rest_of};
ghost use Rattle.fasta.specs.Answers.{found_of, record_of, record_room};
ghost use Rattle.probe.specs.Told.{told, record_fields, found_fields, placed_fields};

use super::tell::{put, tell};
use fasta::{Found, Record};

#[unsafe(no_mangle)]
pub extern "C" fn probe_fasta(text: &[u8], room: &mut [u8], values: &mut [u64]) -> u8
    ensures value { result ≡ (record_of text.now (length room.old)).number }
    ensures values_after { values.new ≡ told (record_fields (record_of text.now (length room.old))) values.old }
    ensures room_after { room.new ≡ record_room text.now room.old }
{
    tell(values, &Record::from(fasta::record(text, room)))
}

#[unsafe(no_mangle)]
pub extern "C" fn probe_fasta_find(text: &[u8], values: &mut [u64]) -> u8
    ensures value { result ≡ (found_of text.now).number }
    ensures values_after { values.new ≡ told (found_fields (found_of text.now)) values.old }
{
    tell(values, &Found::from(fasta::find(text)))
}

// A part handed back: its offset from the front of the text, as `find` has it, and its own length; the number is that of `find`.
#[unsafe(no_mangle)]
pub extern "C" fn probe_fasta_header(text: &[u8], values: &mut [u64]) -> u8
    ensures value { result ≡ (found_of text.now).number }
    ensures values_after { values.new ≡ told (placed_fields (found_of text.now).header (header_of text.now)) values.old }
{
    let found = Found::from(fasta::find(text));
    let size = fasta::header(text).len();
    put(values, &[found.header.offset as u64, size as u64]);
    found.number
}

// The same of the text that remains.
#[unsafe(no_mangle)]
pub extern "C" fn probe_fasta_rest(text: &[u8], values: &mut [u64]) -> u8
    ensures value { result ≡ (found_of text.now).number }
    ensures values_after { values.new ≡ told (placed_fields (found_of text.now).rest (rest_of text.now)) values.old }
{
    let found = Found::from(fasta::find(text));
    let size = fasta::rest(text).len();
    put(values, &[found.rest.offset as u64, size as u64]);
    found.number
}
