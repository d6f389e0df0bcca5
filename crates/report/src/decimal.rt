// Numbers in decimal.
ghost use Rattle.std.specs.Prelude.{◌≡◌, ◌≤◌, length};
ghost use Rattle.ring.specs.Judging.{over};
ghost use Rattle.report.specs.Decimal.{decimal, padded, row, row_room};
ghost use Rattle.report.specs.Report.{longest};

// How many digits a number has.
fn width(x: u16) -> usize
    ensures { (result ≤ 5) × (decimal x ≡ padded result x) }
{
    match x {
        0..=9 => 1,
        10..=99 => 2,
        100..=999 => 3,
        1000..=9999 => 4,
        _ => 5,
    }
}

// Fills a room with the digits of a number, from the last to the first; by place, since what is left to write is known by it.
fn put_digits(room: &mut [u8], x: u16)
    ensures { room.new ≡ padded (length room.old) x }
{
    let mut rest = x;
    for i in (0..room.len()).rev() {
        room[i] = b'0' + (rest % 10) as u8;
        rest /= 10;
    }
}

// Writes a number to the front of a room, and answers how many bytes it takes.
fn put_number(room: &mut [u8], x: u16) -> usize
    requires { 5 ≤ length room.old }
    ensures value { (result ≡ length (decimal x)) × (result ≤ 5) }
    ensures room_after { room.new ≡ over (decimal x) room.old }
{
    let k = width(x);
    put_digits(&mut room[..k], x);
    k
}

// Writes numbers with a space between and `end` behind the last to the front of a room, and answers how many bytes they take. A struct of a room
// and how much of it is written would be no plainer: each of its methods would promise besides that it keeps the room it was lent.
pub fn put_row(room: &mut [u8], numbers: &[u16], end: u8) -> usize
    requires { (row_room (length numbers.now) ≤ length room.old) × (length numbers.now ≤ longest) }
    ensures value { (result ≡ length (row end numbers.now)) × (result ≤ row_room (length numbers.now)) }
    ensures room_after { room.new ≡ over (row end numbers.now) room.old }
{
    let mut at = 0;
    for (i, &x) in numbers.iter().enumerate() {
        at += put_number(&mut room[at..], x);
        room[at] = if i + 1 == numbers.len() { end } else { b' ' };
        at += 1;
    }
    at
}
