// What the programs `ring_cases`, `sheet_cases` and `fasta_cases` print with, and the part of a room or table that they lend.
#![tactic(auto)]

mod lend;
mod out;

pub use lend::middle;
pub use out::{FRESH, MANY, Out};
