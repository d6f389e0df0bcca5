// Letters judged as a key with a start and a strand.
ghost use Rattle.std.specs.Prelude.{◌≡◌, ◌<◌, length, IfOk};
ghost use Rattle.ring.specs.Judging.{Permitted};
ghost use Rattle.ring.specs.Numbered.{kind_number, strand_number};
ghost use Rattle.ring.specs.Strands.{left_to};
ghost use Rattle.ring.specs.Told.{said, told_marks};
ghost use Rattle.ring.specs.Answers.{is_key, as_key, key_marks_of};

use super::factor::first_run;
use super::judge::judge;
use super::kind::Kind;
use super::outcome::Marks;
use super::reading::lower;
use super::refusals::Refusal;
use super::side::Side;
use super::start::start_of;
use super::strand::Strand;

// Whether the opposite strand leaves the key to these letters: it has no lesser reading, and on strand 1 none as low.
fn left_to(letters: &[u8], strand: Strand) -> bool
    requires { 0 < length letters.now }
    ensures { result ≡ left_to letters.now (strand_number strand) }
{
    let own = Side::given(letters);
    let other = Side::opposite(letters);
    let b = start_of(&other);
    match strand {
        Strand::Given => !lower(&other, b, &own, 0),
        Strand::Opposite => lower(&own, 0, &other, b),
    }
}

// Whether some permitted ring has these permitted letters for its key, with this start and strand. (With `==` on a strand the goal would be about
// the derive's own test, so cases it is.)
fn is_key(letters: &[u8], kind: Kind, start: usize, strand: Strand) -> bool
    requires { Permitted (kind_number kind) letters.now }
    ensures { result ≡ is_key (kind_number kind) letters.now start (strand_number strand) }
{
    let run = first_run(&Side::given(letters));
    if run.end != letters.len() {
        return false;
    }
    if run.size <= start {
        return false;
    }
    if kind.has_opposite() {
        return left_to(letters, strand);
    }
    match strand {
        Strand::Given => true,
        Strand::Opposite => false,
    }
}

// The strand of letters that are a key, made here of the number that the caller told; else why they are none: 6, 1, 2, 3, 7, 4. `short` is a yes
// or no with no value beside it, and the four marks are those of the two public calls.
pub fn judge_key(
    letters: &[u8],
    kind: u8,
    start: usize,
    strand: u8,
    short: bool,
) -> Result<Strand, Refusal>
    ensures value { said result ≡ as_key kind letters.now start strand short }
    ensures strand { IfOk result (λ s. strand_number s ≡ strand) }
{
    let kind = judge(letters, kind, false)?;
    let strand = Strand::try_from(strand)?;
    if !is_key(letters, kind, start, strand) {
        return Err(Refusal::NoKey);
    }
    if short {
        return Err(Refusal::NoRoom);
    }
    Ok(strand)
}

// Letters judged as a key: its marks, or why no ring has it.
pub fn check_key(letters: &[u8], kind: u8, start: usize, strand: u8) -> Result<Marks, Refusal>
    ensures { told_marks result ≡ key_marks_of kind letters.now start strand }
{
    let strand = judge_key(letters, kind, start, strand, false)?;
    Ok(Marks {
        n: letters.len(),
        start,
        strand,
    })
}
