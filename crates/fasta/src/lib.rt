// FASTA text read record by record: the header, the letters in a lent room, and the text that remains.
#![tactic(auto)]

mod answer;
mod base;
mod byte;
mod letters;
mod parts;
mod reader;
mod scan;

pub use answer::{Found, Part, Parts, Record, Refusal, Refused, Taken};
pub use parts::{find, header, rest};
pub use reader::record;
