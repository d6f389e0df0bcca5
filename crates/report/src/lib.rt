// What `ringline` prints, as bytes in a lent room.
#![tactic(auto)]

mod decimal;
mod lines;
mod sizes;
mod whole;

pub use sizes::{READ, ROOM};
pub use whole::report;
