// The first record of a lent text, its letters written to a lent room.
ghost use Rattle.std.specs.Prelude.{◌≡◌, length};
ghost use Rattle.fasta.specs.Answers.{record_of, record_room};
ghost use Rattle.fasta.specs.Scan.{HeaderLine};
ghost use Rattle.fasta.specs.Told.{told_record};

use super::answer::{FRONT, Part, Refusal, Refused, Taken};
use super::base::Bases;
use super::letters::{count, put};
use super::scan::{HeaderAt, find_header_line};

// A record that is refused, and the text that remains.
fn refused(refusal: Refusal, rest: Part) -> Result<Taken, Refused>
    ensures { result ≡ Err (record { refusal = refusal; rest = rest }) }
{
    Err(Refused { refusal, rest })
}

// The record below a header line: refused by its letters, or the letters written to the room.
fn read_letters(text: &[u8], head: HeaderAt, room: &mut [u8]) -> Result<Taken, Refused>
    requires { HeaderLine text.now head.mark head.end }
    ensures value { told_record result ≡ record_of text.now (length room.old) }
    ensures room_after { room.new ≡ record_room text.now room.old }
{
    let lines = &text[head.end..];
    let bases = Bases::new();
    let counted = count(lines, &bases);
    let n = counted.n;
    let offset = head.end + counted.rest;
    let rest = Part {
        offset,
        size: text.len() - offset,
    };
    if n == 0 {
        return refused(Refusal::NoLetters, rest);
    }
    if ring::MOST < n {
        return refused(Refusal::TooManyLetters, rest);
    }
    if let Some(place) = counted.other {
        return refused(Refusal::WrongLetter(place), rest);
    }
    if room.len() < n {
        return refused(Refusal::NoRoom, rest);
    }
    put(&lines[..counted.end], &bases, room);
    Ok(Taken {
        n,
        header: head.part(),
        rest,
    })
}

// Writes the letters to the room's front, and answers where the header and the text that remains stand, or why the record is refused: no
// record first, then no letters, too many, a letter that is no base, a short room.
pub fn record(text: &[u8], room: &mut [u8]) -> Result<Taken, Refused>
    ensures value { told_record result ≡ record_of text.now (length room.old) }
    ensures room_after { room.new ≡ record_room text.now room.old }
{
    let none = Refused {
        refusal: Refusal::NoRecord,
        rest: FRONT,
    };
    let head = find_header_line(text).ok_or(none)?;
    read_letters(text, head, room)
}
