// Readings of a ring on a strand: two of them compared, and one written.
ghost use Rattle.std.specs.Prelude.{◌≡◌, ◌+◌, ◌<◌, ◌≤◌, length};
ghost use Rattle.words.specs.Rings.Ring.{reading};
ghost use Rattle.words.specs.Duels.Paired.{Met};
ghost use Rattle.words.specs.Order.Least.{better};
ghost use Rattle.words.specs.Order.Order.{before};
ghost use Rattle.ring.specs.Judging.{over};
ghost use Rattle.ring.specs.Answers.{equal};

use super::side::Side;

// How many letters agree, of the reading at `i` of `u` and of that at `j` of `v`, a ring as long, before two differ. A type for a side with a
// position would not say that the two are as long, which is what each of these functions needs.
#[inline(always)]
fn meet<'a>(u: &Side<'a>, i: usize, v: &Side<'a>, j: usize) -> usize
    requires { (i < length u.now) × (j < length v.now) × (length u.now ≡ length v.now) }
    ensures { Met u.now v.now i j result × (result ≤ length u.now) }
{
    let n = u.len();
    for k in 0..n {
        if u.around(i, k) != v.around(j, k) {
            return k;
        }
    }
    n
}

// Whether the reading at `i` of `u` comes before the reading at `j` of `v`, a ring as long.
#[inline(always)]
pub fn lower<'a>(u: &Side<'a>, i: usize, v: &Side<'a>, j: usize) -> bool
    requires { (i < length u.now) × (j < length v.now) × (length u.now ≡ length v.now) }
    ensures { result ≡ before (reading u.now i) (reading v.now j) }
{
    let k = meet(u, i, v, j);
    if k == u.len() {
        return false;
    }
    u.around(i, k) < v.around(j, k)
}

// Of two positions the one whose reading is lower, the second if they are equal.
#[inline(always)]
pub fn lower_of(side: &Side, c: usize, b: usize) -> usize
    requires { (c < length side.now) × (b < length side.now) }
    ensures { result ≡ better (reading side.now) c b }
{
    if c == b {
        return b;
    }
    if lower(side, c, side, b) {
        return c;
    }
    b
}

// Whether the reading at `i` of `u` is the reading at `j` of `v`, a ring as long.
#[inline(always)]
pub fn same_reading<'a>(u: &Side<'a>, i: usize, v: &Side<'a>, j: usize) -> bool
    requires { (i < length u.now) × (j < length v.now) × (length u.now ≡ length v.now) }
    ensures { result ≡ equal (reading u.now i) (reading v.now j) }
{
    meet(u, i, v, j) == u.len()
}

// Writes the reading at `at` to the front of a room, as two straight runs.
pub fn put_reading(side: &Side, at: usize, room: &mut [u8])
    requires { (at ≤ length side.now) × (length side.now ≤ length room.old) }
    ensures { room.new ≡ over (reading side.now at) room.old }
{
    let rest = side.len() - at;
    side.back(at).copy(room);
    side.front(at).copy(&mut room[rest..]);
}
