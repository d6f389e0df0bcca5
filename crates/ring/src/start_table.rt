// The start table in linear time. The table holds the match lengths first; heads are flagged and entries ticked by adding to them.
// Each block, from the last to the first, is ticked and then filled with its starts. Each function has the letters and the table as two slices: it
// indexes both, and a type for the pair would lend them out again at once.
ghost use Rattle.std.specs.Prelude.{◌≡◌, ◌++◌, ◌+◌, ◌-◌, ◌<◌, ◌≤◌, length, take, drop, get_or};
ghost use Rattle.words.specs.Suffixes.Prefix.{start_table};
ghost use Rattle.words.specs.Repeats.Match.{MatchTable, Kept};
ghost use Rattle.words.specs.Suffixes.Block.{Head, Block};
ghost use Rattle.ring.specs.Answers.{filled_of, starts_table};
ghost use Rattle.ring.specs.Told.{told_check};
ghost use Rattle.words.specs.Starts.Tick.{Flagged, untick, Judged, Outside, Fresh, Ticking, Ticked, Done};
ghost use Rattle.ring.specs.Judging.{most};

use super::factor::first_run;
use super::judge::{MOST, judge};
use super::matches::match_lengths;
use super::refusals::Refusal;
use super::side::Side;

// A head's entry has this added; no match length and no start reaches it. The marks stand in the lent table, since there is no other room, and
// entries have 16 bits.
const HEAD: u16 = MOST as u16;

// An entry has this added where the start is the block's head; no flagged entry reaches it.
const TICK: u16 = HEAD + HEAD;

// Flags the heads; each step goes on by a whole run.
fn flag_heads(w: &[u8], t: &mut [u16])
    requires { (length w.now ≤ most) × (length w.now ≤ length t.old) × MatchTable w.now t.old }
    ensures { Flagged most w.now t.new (length w.now) × Kept (length w.now) t.old t.new }
{
    let mut m: usize = 0;
    while m < w.len() {
        t[m] += HEAD;
        m += first_run(&Side::given(&w[m..])).end;
    }
}

// An entry without its tick.
fn unticked(v: u16) -> usize
    ensures { result ≡ untick most v }
{
    if TICK <= v {
        (v - TICK) as usize
    } else {
        v as usize
    }
}

// What to add to entry `l` of the block from `m`, where letter `l` goes on the word of `p` letters.
fn tick_for(w: &[u8], t: &[u16], m: usize, p: usize, l: usize) -> u16
    requires in_ring { (l < length w.now) × (length w.now ≤ most) × (length w.now ≤ length t.now) }
    requires ticking { Ticking most w.now t.now m p l × Block w.now m p (l + 1) }
    ensures { Judged most (drop m w.now) (take m w.now) (l + 1 - m) result }
{
    if p + p < l + 1 - m {
        if TICK <= t[l - p] {
            return TICK;
        }
        return 0;
    }
    if p + p == l + 1 - m {
        return TICK;
    }
    let z = unticked(t[l + 1 - p]);
    let i = l + 1 - p + z;
    if m + p <= i {
        return TICK;
    }
    if w[i] < w[z] {
        return TICK;
    }
    0
}

// Ticks the entries of the block from `m` whose start is `m`, and answers where the block ends. It reads the entries as flagged, and `resolve`
// writes them as starts, so each scan of a block is a loop of its own.
fn tick(w: &[u8], t: &mut [u16], m: usize) -> usize
    requires in_ring { (m < length w.now) × (length w.now ≤ most) × (length w.now ≤ length t.old) }
    requires head { Head w.now m × Fresh most w.now t.old m }
    ensures { Ticked most w.now t.new m result × Outside t.old t.new m result }
{
    t[m] = TICK;
    let mut p: usize = 1;
    for l in m + 1..w.len() {
        if w[l] < w[l - p] {
            return l;
        }
        let a = if w[l - p] < w[l] {
            p = l + 1 - m;
            TICK
        } else {
            tick_for(w, t, m, p, l)
        };
        t[l] += a;
    }
    w.len()
}

// Turns the ticks of the block from `m` to `end` into starts.
fn resolve(w: &[u8], t: &mut [u16], m: usize, end: usize)
    requires { (length w.now ≤ most) × (length w.now ≤ length t.old) × Ticked most w.now t.old m end }
    ensures { Done w.now t.old t.new m end }
{
    t[m] = m as u16;
    let mut p: usize = 1;
    for l in m + 1..end {
        let mut start = m;
        if w[l - p] < w[l] {
            p = l + 1 - m;
        } else if t[l] < TICK {
            start = t[l - p] as usize + p;
        }
        t[l] = start as u16;
    }
}

// Writes for each prefix of `w` the start of the ring made of it alone.
fn fill_starts(w: &[u8], t: &mut [u16])
    requires { (0 < length w.now) × (length w.now ≤ most) × (length w.now ≤ length t.old) }
    ensures { t.new ≡ start_table w.now ++ drop (length w.now) t.old }
{
    match_lengths(w, t);
    flag_heads(w, t);
    for c in (0..w.len()).rev() {
        if HEAD <= t[c] {
            let end = tick(w, t, c);
            resolve(w, t, c, end);
        }
    }
}

// The start of the ring made of each prefix alone, in the table's first n entries.
pub fn starts(ring: &[u8], kind: u8, table: &mut [u16]) -> Result<(), Refusal>
    ensures value { told_check result ≡ filled_of kind ring.now (length table.old) }
    ensures table_after { table.new ≡ starts_table kind ring.now table.old }
{
    judge(ring, kind, table.len() < ring.len())?;
    fill_starts(ring, table);
    Ok(())
}
