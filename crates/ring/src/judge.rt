// The judging of a ring of any of the three kinds: the first refusal in the order 6, 1, 2, 3, 4.
ghost use Rattle.std.specs.Prelude.{◌≡◌, ◌<◌, length, IfOk, MatchOption};
ghost use Rattle.ring.specs.Judging.{first_bad, verdict};
ghost use Rattle.ring.specs.Answers.{checked_of};
ghost use Rattle.ring.specs.Numbered.{kind_number};
ghost use Rattle.ring.specs.Told.{said, told_check};

use super::kind::{Kind, letter_table};
use super::refusals::Refusal;

// The most letters that a ring has.
pub const MOST: usize = 8192;

// The first position that holds no letter of the kind.
fn first_bad(ring: &[u8], kind: Kind) -> Option<usize>
    ensures { MatchOption result (first_bad (kind_number kind) ring.now ≡ length ring.now) (λ i. (first_bad (kind_number kind) ring.now ≡ i) × (i < length ring.now)) }
{
    // By case: with `==` the goal would be about the derive's own test.
    if let Kind::Feature = kind {
        return None;
    }
    let letters = letter_table();
    for (i, &a) in ring.iter().enumerate() {
        if !kind.has_letter(&letters, a) {
            return Some(i);
        }
    }
    None
}

// The kind of a ring that is taken, made here of the number that the caller told; `short` says that a needed table or room has too few entries.
pub fn judge(ring: &[u8], kind: u8, short: bool) -> Result<Kind, Refusal>
    ensures value { said result ≡ verdict kind ring.now short }
    ensures kind { IfOk result (λ k. kind_number k ≡ kind) }
{
    let kind = Kind::try_from(kind)?;
    if ring.is_empty() {
        return Err(Refusal::NoLetters);
    }
    if MOST < ring.len() {
        return Err(Refusal::TooManyLetters);
    }
    if let Some(at) = first_bad(ring, kind) {
        return Err(Refusal::WrongLetter(at));
    }
    if short {
        return Err(Refusal::NoRoom);
    }
    Ok(kind)
}

// A ring judged alone: what every call on a ring judges that is lent no table and no room.
pub fn check(ring: &[u8], kind: u8) -> Result<(), Refusal>
    ensures { told_check result ≡ checked_of kind ring.now }
{
    judge(ring, kind, false)?;
    Ok(())
}
