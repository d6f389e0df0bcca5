// A key turned back into the deposit that has it.
ghost use Rattle.std.specs.Prelude.{◌≡◌, ◌≤◌, length};
ghost use Rattle.ring.specs.Judging.{over};
ghost use Rattle.ring.specs.Numbered.{strand_number};
ghost use Rattle.ring.specs.Told.{told_marks};
ghost use Rattle.ring.specs.Answers.{deposit, deposited_of, deposit_room};

use super::key_test::judge_key;
use super::outcome::Marks;
use super::reading::put_reading;
use super::refusals::Refusal;
use super::side::Side;
use super::strand::Strand;

// Writes the letters turned back from a start, on a strand.
fn put_deposit(letters: &[u8], start: usize, strand: Strand, room: &mut [u8])
    requires { (start ≤ length letters.now) × (length letters.now ≤ length room.old) }
    ensures { room.new ≡ over (deposit letters.now start (strand_number strand)) room.old }
{
    let at = match strand {
        Strand::Given => letters.len() - start,
        Strand::Opposite => start,
    };
    put_reading(&Side::new(letters, strand), at, room);
}

// The same as `check_key`, with the deposit that has the key written to a room: 4 for a short room, last.
pub fn write_deposit(
    letters: &[u8],
    kind: u8,
    start: usize,
    strand: u8,
    room: &mut [u8],
) -> Result<Marks, Refusal>
    ensures value { told_marks result ≡ deposited_of kind letters.now start strand (length room.old) }
    ensures room_after { room.new ≡ deposit_room kind letters.now start strand room.old }
{
    let n = letters.len();
    let strand = judge_key(letters, kind, start, strand, room.len() < n)?;
    put_deposit(letters, start, strand, room);
    Ok(Marks { n, start, strand })
}
