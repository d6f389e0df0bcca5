// The duel route: the sequence of duels, with the pairs of letters that they read.
ghost use Rattle.std.specs.Prelude.{◌≡◌, ◌+◌, ◌≤◌, ◌<◌, length};
ghost use Rattle.words.specs.Duels.Duel.{forward, duels, start_of, pairs, moved_p, moved_q};
ghost use Rattle.ring.specs.Answers.{fought_of};
ghost use Rattle.ring.specs.Judging.{most};
ghost use Rattle.ring.specs.Told.{told_duels};

use super::judge::judge;
use super::outcome::Duels;
use super::refusals::Refusal;
use super::side::Side;

// Where the two positions of a duel stand.
#[derive(Clone, Copy)]
struct Pair {
    p: usize,
    q: usize,
}

// Of letters `a` at `at` + k and `b` at the other position + k: where `at` stands behind the duel, which moves the one with the greater letter.
fn forward(at: usize, k: usize, a: u8, b: u8) -> usize
    requires { (at ≤ most) × (k ≤ most) }
    ensures value { result ≡ forward a b at k }
    ensures near { result ≤ at + (k + 1) }
{
    if b < a { at + (k + 1) } else { at }
}

impl Pair {
    // Step 4: of letters `a` at p + k and `b` at q + k the greater one's position moves forward by k + 1; if the two are then
    // equal, q grows by one; the smaller is called p.
    fn moved(self, k: usize, a: u8, b: u8) -> Pair
        requires { (self.p ≤ most) × (self.q ≤ most) × (k ≤ most) }
        ensures { (result.p ≡ moved_p self.p self.q k a b) × (result.q ≡ moved_q self.p self.q k a b) }
    {
        let x = forward(self.p, k, a, b);
        let y = forward(self.q, k, b, a);
        if x == y {
            Pair { p: x, q: y + 1 }
        } else {
            Pair {
                p: x.min(y),
                q: x.max(y),
            }
        }
    }
}

// Steps 1 to 4: a duel ends at its first differing pair, or after n equal pairs. 01 names the form of the loops, and the end of the march is n.
fn fight_all(ring: &[u8]) -> Duels
    requires { (0 < length ring.now) × (length ring.now ≤ most) }
    ensures { (result.start ≡ start_of (duels ring.now)) × (result.pairs ≡ pairs ring.now) }
{
    let side = Side::given(ring);
    let n = ring.len();
    let mut at = Pair { p: 0, q: 1 };
    let mut read: usize = 0;
    let pairs = 'duels: loop {
        let Pair { p, q } = at;
        if n <= q {
            break 'duels read;
        }
        let mut k: usize = 0;
        let met = 'scan: loop {
            if k == n {
                break 'scan n;
            }
            if side.around(p, k) != side.around(q, k) {
                break 'scan k;
            }
            k += 1;
        };
        if met == n {
            break 'duels read + n;
        }
        read += met + 1;
        at = at.moved(met, side.around(p, met), side.around(q, met));
    };
    Duels { start: at.p, pairs }
}

// The start by duels, lent no table, and the pairs read.
pub fn duel(ring: &[u8], kind: u8) -> Result<Duels, Refusal>
    ensures { told_duels result ≡ fought_of kind ring.now }
{
    judge(ring, kind, false)?;
    Ok(fight_all(ring))
}
