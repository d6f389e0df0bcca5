// Reads one base ring from standard input and prints its report, in one write.
#![tactic(auto)]

ghost use Rattle.std.specs.Prelude.{◌≤◌, length, IfOk};

use std::io;
use std::io::{ErrorKind, Read, Write};

// Reads until the room is full or the input ends, and answers how many bytes stand in the room. Interrupted reads are tried again, and no count
// bounds these, so the loop's count is as large as there is.
fn fill(from: &mut impl Read, room: &mut [u8]) -> io::Result<usize>
    ensures { IfOk result (λ n. n ≤ length room.new) }
{
    let mut n = 0;
    for _ in 0..u64::MAX {
        match from.read(&mut room[n..]) {
            Ok(0) => break,
            Ok(more) => n += more,
            Err(e) if e.kind() == ErrorKind::Interrupted => {}
            Err(e) => return Err(e),
        }
    }
    Ok(n)
}

fn print(rt: &impl Print, text: &[u8]) -> io::Result<()> {
    io::writer(rt).write_all(text)
}

fn main(rt: HostRuntime) -> io::Result<()> {
    let mut input = [0; report::READ];
    let n = fill(&mut rt.reader(), &mut input)?;
    let mut room = [0; report::ROOM];
    let size = report::report(&input[..n], &mut room);
    print(&rt, &room[..size])
}
