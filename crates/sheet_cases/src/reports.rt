// The report that `ringline` prints, over many inputs.
use report::ROOM;
use ring::MOST;
use shown::Out;

// A short report whole.
fn whole(out: &mut Out, input: &[u8]) {
    out.text(b"REPORT on");
    out.letters(input);
    out.text(b" :");
    let mut room = [b'.'; ROOM];
    let size = report::report(input, &mut room);
    out.number(size);
    out.line();
    if let Some(said) = room.get(..size) {
        out.text(said);
    }
}

// A long report: its length, its two sums and its first 20 bytes.
fn long(out: &mut Out, input: &[u8]) {
    let mut room = [b'.'; ROOM];
    let size = report::report(input, &mut room);
    out.number(size);
    if let Some(said) = room.get(..size) {
        out.summed(said);
    }
    out.text(b" :");
    out.letters(&room[..20]);
    out.line();
}

// Short inputs, with one line feed, with other ends and other bytes, and of nothing.
pub fn short(out: &mut Out) {
    for input in [
        &b"GATTACA\n"[..],
        b"GATTACA",
        b"A\n",
        b"ACGAC\n",
        b"TTGA",
        b"GAN",
        b"GAN\n",
        b"GATTACA\n\n",
        b"GATTACA\r\n",
        b"\nGATTACA",
        b"gattaca\n",
        b"GAT TACA\n",
        b"",
        b"\n",
        b"\n\n",
        b"\x00\n",
    ] {
        whole(out, input);
    }
}

// `n` letters A and `feeds` line feeds.
fn filled(out: &mut Out, n: usize, feeds: usize) {
    let mut room = [b'A'; MOST + 8];
    let Some(input) = room.get_mut(..n.saturating_add(feeds)) else {
        return;
    };
    input[n..].fill(b'\n');
    out.labelled(b"REPORT on A", n);
    out.labelled(b" times, line feeds", feeds);
    out.text(b" :");
    long(out, input);
}

// Long inputs.
pub fn full(out: &mut Out) {
    for (n, feeds) in [
        (MOST - 1, 0),
        (MOST, 0),
        (MOST, 1),
        (MOST, 2),
        (MOST - 1, 2),
        (MOST + 1, 0),
        (MOST + 1, 1),
        (MOST + 2, 0),
    ] {
        filled(out, n, feeds);
    }
}

// A room of 159,999 bytes stays as it is.
pub fn small_room(out: &mut Out) {
    let mut room = [b'.'; ROOM - 1];
    let size = report::report(b"GATTACA", &mut room);
    out.labelled(b"REPORT to a room of 159,999 bytes :", size);
    out.letters(&room[..20]);
    out.line();
}
