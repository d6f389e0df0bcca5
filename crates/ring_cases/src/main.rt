// Runs the examples and the edges of the ring rules through the calls of `ring`, and prints what came back.
#![tactic(auto)]

mod brief;
mod calls;
mod comparison;
mod deposits;
mod edges;
mod examples;
mod iupac;
mod keys;
mod letters;
mod repeats;
mod tables;
mod turns;

use shown::Out;
use std::io;

fn main(rt: HostRuntime) -> io::Result<()> {
    let mut out = Out::new(rt.stdout());
    examples::rows(&mut out);
    examples::more(&mut out);
    examples::pairs(&mut out);
    repeats::again(&mut out);
    repeats::once(&mut out);
    edges::short(&mut out);
    edges::both(&mut out);
    edges::full(&mut out);
    edges::full_last(&mut out);
    edges::beyond(&mut out);
    edges::alphabet(&mut out, 1);
    edges::alphabet(&mut out, 2);
    edges::rooms(&mut out);
    edges::key_rooms(&mut out);
    comparison::refusals(&mut out);
    comparison::long(&mut out);
    letters::done(&mut out);
    letters::refusals(&mut out);
    deposits::bases(&mut out);
    deposits::features(&mut out);
    deposits::long(&mut out);
    deposits::deposits(&mut out);
    deposits::refusals(&mut out);
    edges::refused(&mut out);
    iupac::rings(&mut out);
    iupac::pairs(&mut out);
    iupac::edges(&mut out);
    iupac::key_rooms(&mut out);
    deposits::uncertain(&mut out);
    out.end()
}
