// Runs the examples and the edges of sheets, books and the report, damage among them, and prints what came back.
#![tactic(auto)]

mod books;
mod damage;
mod reports;
mod sheets;

use shown::Out;
use std::io;

fn main(rt: HostRuntime) -> io::Result<()> {
    let mut out = Out::new(rt.stdout());
    sheets::deposits(&mut out);
    sheets::rooms(&mut out);
    sheets::edges(&mut out);
    sheets::marks(&mut out);
    sheets::ways(&mut out);
    sheets::uncertain(&mut out);
    damage::sheets(&mut out);
    books::three(&mut out);
    books::left_overs(&mut out);
    books::kinds(&mut out);
    reports::short(&mut out);
    reports::full(&mut out);
    reports::small_room(&mut out);
    out.end()
}
