// An answer told in 01's numbers. Each struct has fields of its own, so each has a `From` of its own.
ghost use Rattle.std.specs.Prelude.{◌≡◌, Result, Err};
ghost use Rattle.sheet.specs.Told.{told_refusal, told_sheet, told_walk};

use super::answer::{Entry, Walked};
use super::outcome::Sheet;
use super::refusals::Refusal;
use ring::{Checked, Marked};

// `original` answers nothing where it is done. `Checked` is the ring's, so the language lets only a type of this crate stand here, and not its
// `Result`.
impl From<Refusal> for Checked {
    ghost from_gives = { λ e a. a ≡ told_refusal e };

    fn from(e: Refusal) -> Checked {
        Checked {
            number: e.number(),
            place: e.place(),
        }
    }
}

impl From<Result<Sheet, Refusal>> for Entry {
    ghost from_gives = { λ r a. a ≡ told_sheet r };

    fn from(r: Result<Sheet, Refusal>) -> Entry {
        match r {
            Ok(s) => Entry {
                marked: Marked::from(Ok(s.marks)),
                kind: u8::from(s.kind),
                before: s.before,
            },
            Err(e) => Entry {
                marked: ring::refusal(e.number(), e.place()),
                kind: 0,
                before: 0,
            },
        }
    }
}

impl From<Result<usize, Refusal>> for Walked {
    ghost from_gives = { λ r a. a ≡ told_walk r };

    fn from(r: Result<usize, Refusal>) -> Walked {
        let (number, place, sheets) = match r {
            Ok(sheets) => (0, 0, sheets),
            Err(e) => (e.number(), e.place(), 0),
        };
        Walked {
            number,
            place,
            sheets,
        }
    }
}
