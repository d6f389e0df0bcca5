// The factor route: the first factor of a strand, the factor table factor by factor, and the start among the runs' heads.
ghost use Rattle.std.specs.Prelude.{◌≡◌, cond, ◌<◌, ◌≤◌, length};
ghost use Rattle.words.specs.Factors.Scan.{Scan, FirstFactor};
ghost use Rattle.words.specs.Factors.Factor.{FirstRun, factor_table};
ghost use Rattle.words.specs.Order.Least.{better};
ghost use Rattle.words.specs.Rings.Ring.{start, reading};
ghost use Rattle.ring.specs.Judging.{most, over};
ghost use Rattle.ring.specs.Behind.{none_read, behind_of};
ghost use Rattle.ring.specs.Answers.{factored_of, factored_table};
ghost use Rattle.ring.specs.Told.{told_factors};

use super::judge::judge;
use super::outcome::Factors;
use super::reading::lower_of;
use super::refusals::Refusal;
use super::side::Side;
use std::cmp::Ordering;

// What is read of letters: how many, and where the one stands that is expected next; `head` where a run of equal factors begins there. Both
// numbers hold in either case, and a search takes them alike.
#[derive(Clone, Copy)]
pub struct Behind {
    pub read: usize,
    pub back: usize,
    pub head: bool,
}

// A first factor: its length, how many letters its scan has read, and where the letter stands that was expected next.
#[derive(Clone, Copy)]
pub struct Factor {
    pub size: usize,
    pub read: usize,
    pub back: usize,
}

impl Factor {
    // What is read of the letters behind the factor. Where its word stands there again, the scan has read that far already; else the next
    // search begins anew, and so does a run.
    fn behind(self) -> Behind
        requires { self.size ≤ self.read }
        ensures { result ≡ behind_of self.size self.read self.back }
    {
        if self.back < self.size {
            return none_read();
        }
        Behind {
            read: self.read - self.size,
            back: self.back - self.size,
            head: false,
        }
    }
}

// Before a search: the first letter alone is a word.
fn none_read() -> Behind
    ensures { result ≡ none_read }
{
    Behind {
        read: 1,
        back: 0,
        head: true,
    }
}

// The longest Lyndon word that is a prefix of a strand; the scan goes on from what is read of it already.
fn first_factor(side: &Side, from: Behind) -> Factor
    requires { Scan side.now from.read from.back }
    ensures { FirstFactor side.now result.size result.read result.back }
{
    let n = side.len();
    let mut back = from.back;
    for read in from.read..n {
        match side.compare(read, back) {
            Ordering::Less => {
                return Factor {
                    size: read - back,
                    read,
                    back,
                };
            }
            Ordering::Equal => back += 1,
            Ordering::Greater => back = 0,
        }
    }
    Factor {
        size: n - back,
        read: n,
        back,
    }
}

// How long the first factor is, and where the run of factors equal to it ends.
#[derive(Clone, Copy)]
pub struct Run {
    pub size: usize,
    pub end: usize,
}

// The first run of equal factors of a strand, in one scan of the letters.
pub fn first_run(side: &Side) -> Run
    requires { 0 < length side.now }
    ensures { FirstRun side.now result.size result.end }
{
    let f = first_factor(side, none_read());
    let size = f.size;
    let read = f.read;
    Run {
        size,
        end: read - read % size,
    }
}

// The one of two positions whose reading is lower, where a run begins at the first: the start is never inside a run.
fn best_of(ring: &Side, head: bool, from: usize, best: usize) -> usize
    requires { (from < length ring.now) × (best < length ring.now) }
    ensures { result ≡ cond head (better (reading ring.now) from best) best }
{
    if head {
        return lower_of(ring, from, best);
    }
    best
}

// Fills the factor table: each factor is found on the slice from the last one's end. Of the runs' heads the one whose reading is
// lowest is kept, the first if several are equal. It indexes letters and table both, so it has them as two slices.
fn fill_factors(ring: &[u8], table: &mut [u16]) -> Factors
    requires { (0 < length ring.now) × (length ring.now ≤ most) × (length ring.now ≤ length table.old) }
    ensures value { (result.count ≡ length (factor_table ring.now)) × (result.start ≡ start ring.now) }
    ensures table_after { table.new ≡ over (factor_table ring.now) table.old }
{
    let whole = Side::given(ring);
    let mut rest = ring;
    let mut from: usize = 0;
    let mut count: usize = 0;
    let mut best: usize = 0;
    let mut behind = none_read();
    // Each step goes on by the factor that it found.
    while !rest.is_empty() {
        let f = first_factor(&Side::given(rest), behind);
        let size = f.size;
        table[count] = from as u16;
        count += 1;
        best = best_of(&whole, behind.head, from, best);
        from += size;
        rest = &rest[size..];
        behind = f.behind();
    }
    Factors { count, start: best }
}

// The number of factors and the start, with the factors' first positions in the table's front.
pub fn factors(ring: &[u8], kind: u8, table: &mut [u16]) -> Result<Factors, Refusal>
    ensures value { told_factors result ≡ factored_of kind ring.now (length table.old) }
    ensures table_after { table.new ≡ factored_table kind ring.now table.old }
{
    judge(ring, kind, table.len() < ring.len())?;
    Ok(fill_factors(ring, table))
}
