// The repeat of a ring, from the run of equal factors that begins at its start.
ghost use Rattle.std.specs.Prelude.{◌≡◌, ◌↔◌, true, ◌<◌, ◌≤◌, length, drop};
ghost use Rattle.words.specs.Rings.Ring.{start};
ghost use Rattle.words.specs.Factors.Factor.{FirstRun};
ghost use Rattle.words.specs.Duels.Paired.{Paired};
ghost use Rattle.words.specs.Repeats.Repeat as defined;
ghost use Rattle.ring.specs.Answers.{repeated_of};
ghost use Rattle.ring.specs.Told.{told_repeat};

use super::judge::judge;
use super::refusals::Refusal;
use super::side::Side;
use super::start::{StartRun, start_run};

// Whether the `size` letters from `from` on are those from `at` on, round the ring. (`meet` asks for positions below n and reads n letters; these
// may be n, and `size` letters are read.)
fn same_letters(ring: &Side, from: usize, at: usize, size: usize) -> bool
    requires { (from ≤ length ring.now) × (at ≤ length ring.now) × (size ≤ length ring.now) }
    ensures { (result ≡ true) ↔ Paired ring.now ring.now from at size }
{
    for k in 0..size {
        if ring.around(from, k) != ring.around(at, k) {
            return false;
        }
    }
    true
}

// The repeat is the factor's length where the run at the start goes round the whole ring, or where it stops one factor short, the ring
// being opened inside a factor, and the factor's letters stand there once more; else it is n. What a run is, is said of the ring too, so
// `StartRun` does not carry it.
fn repeat_of(ring: &Side, found: StartRun) -> usize
    requires in_ring { (0 < length ring.now) × (found.start ≡ start ring.now) }
    requires run { FirstRun (drop found.start ring.now) found.run.size found.run.end }
    ensures { result ≡ defined.repeat ring.now }
{
    let n = ring.len();
    let start = found.start;
    let size = found.run.size;
    let end = found.run.end;
    if end == n {
        return size;
    }
    if n - end == size {
        if same_letters(ring, start + end, start, size) {
            return size;
        }
    }
    n
}

// The smallest p from 1 to n such that turning the ring by p gives the same letters at every position.
pub fn repeat(ring: &[u8], kind: u8) -> Result<usize, Refusal>
    ensures { told_repeat result ≡ repeated_of kind ring.now }
{
    judge(ring, kind, false)?;
    let side = Side::given(ring);
    Ok(repeat_of(&side, start_run(&side)))
}
