// The suffix table: the least nonempty suffix of every prefix.
ghost use Rattle.std.specs.Prelude.{◌≡◌, ◌≤◌, ◌<◌, length};
ghost use Rattle.words.specs.Suffixes.Prefix.{suffix_table};
ghost use Rattle.words.specs.Suffixes.Block.{Head};
ghost use Rattle.words.specs.Suffixes.Fill.{Filled};
ghost use Rattle.ring.specs.Judging.{most, over};
ghost use Rattle.ring.specs.Answers.{filled_of, suffixes_table};
ghost use Rattle.ring.specs.Told.{told_check};

use super::judge::judge;
use super::refusals::Refusal;

// Fills the entries of the block from `m`, a Lyndon word over and over, and answers where the next block begins. An entry is `m`
// where the block so far is one Lyndon word, else the entry one word before, plus that word's length. It indexes letters and table both, so it
// has them as two slices.
fn fill_block(ring: &[u8], table: &mut [u16], m: usize) -> usize
    requires in_ring { (m < length ring.now) × (length ring.now ≤ length table.old) × (length ring.now ≤ most) }
    requires head { Head ring.now m × Filled ring.now table.old table.old m }
    ensures next { (m < result) × (result ≤ length ring.now) × Head ring.now result }
    ensures filled { Filled ring.now table.old table.new result }
{
    table[m] = m as u16;
    let mut p: usize = 1;
    let mut end = ring.len();
    for l in m + 1..ring.len() {
        if ring[l] < ring[l - p] {
            end = l;
            break;
        }
        if ring[l - p] < ring[l] {
            p = l + 1 - m;
            table[l] = m as u16;
        } else {
            table[l] = table[l - p] + (p as u16);
        }
    }
    end - (end - m) % p
}

// Fills the table block by block; each step goes on by a whole block.
fn fill_suffixes(ring: &[u8], table: &mut [u16])
    requires { (length ring.now ≤ length table.old) × (length ring.now ≤ most) }
    ensures { table.new ≡ over (suffix_table ring.now) table.old }
{
    let n = ring.len();
    let mut m: usize = 0;
    while m < n {
        m = fill_block(ring, table, m);
    }
}

// The first position of the least nonempty suffix of each prefix, in the table's first n entries.
pub fn suffixes(ring: &[u8], kind: u8, table: &mut [u16]) -> Result<(), Refusal>
    ensures value { told_check result ≡ filled_of kind ring.now (length table.old) }
    ensures table_after { table.new ≡ suffixes_table kind ring.now table.old }
{
    judge(ring, kind, table.len() < ring.len())?;
    fill_suffixes(ring, table);
    Ok(())
}
