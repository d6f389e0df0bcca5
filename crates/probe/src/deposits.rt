// Letters judged as a key, and turned back into the deposit that has it.
ghost use Rattle.std.specs.Prelude.{◌≡◌, length};
ghost use Rattle.ring.specs.Answers.{key_marks_of, deposited_of, deposit_room};
ghost use Rattle.probe.specs.Told.{told, marked_fields};

use super::tell::tell;
use ring::Marked;

#[unsafe(no_mangle)]
pub extern "C" fn probe_check_key(
    kind: u8,
    start: usize,
    strand: u8,
    letters: &[u8],
    values: &mut [u64],
) -> u8
    ensures value { result ≡ (key_marks_of kind letters.now start strand).number }
    ensures values_after { values.new ≡ told (marked_fields (key_marks_of kind letters.now start strand)) values.old }
{
    let marked = Marked::from(ring::check_key(letters, kind, start, strand));
    tell(values, &marked)
}

#[unsafe(no_mangle)]
pub extern "C" fn probe_write_deposit(
    kind: u8,
    start: usize,
    strand: u8,
    letters: &[u8],
    room: &mut [u8],
    values: &mut [u64],
) -> u8
    ensures value { result ≡ (deposited_of kind letters.now start strand (length room.old)).number }
    ensures values_after { values.new ≡ told (marked_fields (deposited_of kind letters.now start strand (length room.old))) values.old }
    ensures room_after { room.new ≡ deposit_room kind letters.now start strand room.old }
{
    let marked = Marked::from(ring::write_deposit(letters, kind, start, strand, room));
    tell(values, &marked)
}
