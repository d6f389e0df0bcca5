// The catalogue sheet: written, read from the end of lent bytes, turned back to its deposit, and a book of sheets walked.
#![tactic(auto)]

mod answer;
mod book;
mod outcome;
mod reader;
mod refusals;
mod told;
mod trailer;
mod writer;

pub use answer::{Entry, Walked};
pub use book::walk;
pub use outcome::Sheet;
pub use reader::{letters, original, read};
pub use refusals::Refusal;
pub use writer::write;
