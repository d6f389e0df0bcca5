// The ring rules: judging, factors, prefix tables, the two routes to a start, keys and comparison.
#![tactic(auto)]

mod answer;
mod comparison;
mod deposits;
mod duels;
mod facing;
mod factor;
mod judge;
mod key_test;
mod keys;
mod kind;
mod marking;
mod matches;
mod outcome;
mod reading;
mod refusals;
mod repeats;
mod side;
mod start;
mod start_table;
mod strand;
mod suffix;
mod told;

// A public call is told a kind and a strand by number, since it takes any byte: 6 (and 7 for a strand) is the answer to one that is none, and an
// enum would ask more of callers. `suffixes` and `starts` stay two calls: C calls both, and each has a definition of its own.
pub use answer::{Checked, Compared, Factored, Fought, Marked, Repeated};
pub use comparison::compare;
pub use deposits::write_deposit;
pub use duels::duel;
pub use factor::factors;
pub use judge::{MOST, check};
pub use key_test::check_key;
pub use keys::{key, write_key};
pub use kind::{Kind, strands_of};
pub use marking::{mark, refusal, write_letters};
pub use outcome::{Duels, Factors, Marks};
pub use refusals::{NotCompared, Refusal};
pub use repeats::repeat;
pub use start_table::starts;
pub use strand::Strand;
pub use suffix::suffixes;
