// Runs the rules of FASTA text one by one through the calls of `fasta`, and prints what came back.
#![tactic(auto)]

mod bytes;
mod letters;
mod lines;
mod long;
mod marks;
mod numbers;
mod parts;
mod returns;
mod rooms;
mod show;
mod walk;

use shown::Out;
use std::io;

fn main(rt: HostRuntime) -> io::Result<()> {
    let mut out = Out::new(rt.stdout());
    parts::records(&mut out);
    parts::headers(&mut out);
    lines::ends(&mut out);
    lines::mixed(&mut out);
    returns::letters(&mut out);
    returns::lines(&mut out);
    returns::headers(&mut out);
    letters::kept(&mut out);
    letters::passed(&mut out);
    letters::before(&mut out);
    marks::headers(&mut out);
    marks::within(&mut out);
    marks::blanks(&mut out);
    marks::places(&mut out);
    numbers::nothing(&mut out);
    numbers::early(&mut out);
    numbers::none(&mut out);
    numbers::wrong(&mut out);
    rooms::short(&mut out);
    rooms::order(&mut out);
    bytes::alone(&mut out);
    bytes::between(&mut out);
    bytes::before(&mut out);
    walk::texts(&mut out);
    walk::refused(&mut out);
    long::records(&mut out);
    out.end()
}
