// The report on bytes read: the ring without its line feed, judged, and five lines or one.
ghost use Rattle.std.specs.Prelude.{◌≡◌, ◌≤◌, length, take};
ghost use Rattle.report.specs.Report.{kept, report_length, report_room};

use super::decimal::put_row;
use super::lines::put_lines;
use super::sizes::ROOM;

// The bytes without one line feed at their end.
fn without_line_feed(input: &[u8]) -> &[u8]
    ensures { result.now ≡ take (kept input.now) input.now }
{
    match input {
        [ring @ .., b'\n'] => ring,
        _ => input,
    }
}

// Writes the report to a room of 160,000 bytes or more and answers its length; a shorter room stays as it is and gives 0, as C is told it.
pub fn report(input: &[u8], room: &mut [u8]) -> usize
    ensures value { result ≡ report_length input.now (length room.old) }
    ensures room_after { room.new ≡ report_room input.now room.old }
    ensures within { result ≤ length room.old }
{
    if room.len() < ROOM {
        return 0;
    }
    match put_lines(room, without_line_feed(input)) {
        Ok(size) => size,
        Err(refusal) => {
            let numbers = [u16::from(refusal.number()), refusal.place() as u16];
            put_row(room, &numbers, b'\n')
        }
    }
}
