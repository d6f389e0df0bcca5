// How far the letters from each position on match the front.
ghost use Rattle.std.specs.Prelude.{◌<◌, ◌≤◌, length};
ghost use Rattle.words.specs.Repeats.Match.{Match, MatchLength, MatchTable, Kept};
ghost use Rattle.ring.specs.Judging.{most};

// How far the letters from `k` on match the front, where `from` of them are known to; as far as there are letters, if none differs. (With
// `find` over the range the proof needs more than the loop.)
fn extend(w: &[u8], k: usize, from: usize) -> usize
    requires { Match w.now k from }
    ensures { MatchLength w.now k result }
{
    let left = w.len() - k;
    for z in from..left {
        if w[k + z] != w[z] {
            return z;
        }
    }
    left
}

// Writes the match length of each position; 0 for the front itself.
// The letters from `l` to `r` match the front, so a position between them matches as one near the front does, up to `r`. It indexes letters and
// table both, so it has them as two slices.
pub fn match_lengths(w: &[u8], t: &mut [u16])
    requires { (0 < length w.now) × (length w.now ≤ most) × (length w.now ≤ length t.old) }
    ensures { MatchTable w.now t.new × Kept (length w.now) t.old t.new }
{
    t[0] = 0;
    let mut l: usize = 0;
    let mut r: usize = 0;
    for k in 1..w.len() {
        let known = if k < r {
            (t[k - l] as usize).min(r - k)
        } else {
            0
        };
        let z = extend(w, k, known);
        t[k] = z as u16;
        if r < k + z {
            l = k;
            r = k + z;
        }
    }
}
