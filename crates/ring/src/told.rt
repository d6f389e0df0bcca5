// An answer told in 01's numbers. Each struct has fields of its own, so each has a `From` of its own: over a trait, the impls would be as long.
ghost use Rattle.std.specs.Prelude.{◌≡◌};
ghost use Rattle.ring.specs.Told.{told_check, told_factors, told_duels, told_repeat, told_marks, told_compare};

use super::answer::{Checked, Compared, Factored, Fought, Marked, Repeated};
use super::marking::refusal;
use super::outcome::{Duels, Factors, Marks};
use super::refusals::{NotCompared, Refusal};

impl From<Result<(), Refusal>> for Checked {
    ghost from_gives = { λ r a. a ≡ told_check r };

    fn from(r: Result<(), Refusal>) -> Checked {
        let (number, place) = match r {
            Ok(()) => (0, 0),
            Err(e) => (e.number(), e.place()),
        };
        Checked { number, place }
    }
}

impl From<Result<Factors, Refusal>> for Factored {
    ghost from_gives = { λ r a. a ≡ told_factors r };

    fn from(r: Result<Factors, Refusal>) -> Factored {
        let (number, place, count, start) = match r {
            Ok(f) => (0, 0, f.count, f.start),
            Err(e) => (e.number(), e.place(), 0, 0),
        };
        Factored {
            number,
            place,
            count,
            start,
        }
    }
}

impl From<Result<Duels, Refusal>> for Fought {
    ghost from_gives = { λ r a. a ≡ told_duels r };

    fn from(r: Result<Duels, Refusal>) -> Fought {
        let (number, place, start, pairs) = match r {
            Ok(d) => (0, 0, d.start, d.pairs),
            Err(e) => (e.number(), e.place(), 0, 0),
        };
        Fought {
            number,
            place,
            start,
            pairs,
        }
    }
}

impl From<Result<usize, Refusal>> for Repeated {
    ghost from_gives = { λ r a. a ≡ told_repeat r };

    fn from(r: Result<usize, Refusal>) -> Repeated {
        let (number, place, repeat) = match r {
            Ok(repeat) => (0, 0, repeat),
            Err(e) => (e.number(), e.place(), 0),
        };
        Repeated {
            number,
            place,
            repeat,
        }
    }
}

impl From<Result<Marks, Refusal>> for Marked {
    ghost from_gives = { λ r a. a ≡ told_marks r };

    fn from(r: Result<Marks, Refusal>) -> Marked {
        match r {
            Ok(m) => Marked {
                number: 0,
                place: 0,
                n: m.n,
                start: m.start,
                strand: u8::from(m.strand),
            },
            Err(e) => refusal(e.number(), e.place()),
        }
    }
}

impl From<Result<bool, NotCompared>> for Compared {
    ghost from_gives = { λ r a. a ≡ told_compare r };

    fn from(r: Result<bool, NotCompared>) -> Compared {
        let (number, place, ring, same) = match r {
            Ok(same) => (0, 0, 0, same),
            Err(NotCompared::First(e)) => (e.number(), e.place(), 1, false),
            Err(NotCompared::Second(e)) => (e.number(), e.place(), 2, false),
        };
        Compared {
            number,
            place,
            ring,
            same,
        }
    }
}
