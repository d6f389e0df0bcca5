// The comparison of two rings of one kind.
ghost use Rattle.std.specs.Prelude.{◌≡◌, ◌<◌, length};
ghost use Rattle.ring.specs.Numbered.{kind_number};
ghost use Rattle.ring.specs.Told.{told_compare};
ghost use Rattle.ring.specs.Answers.{same_key, compared_of};

use super::judge::judge;
use super::kind::Kind;
use super::reading::same_reading;
use super::refusals::NotCompared;
use super::side::Side;
use super::start::start_of;

// Whether two permitted rings have one key: the lowest readings agree, or those of the first's opposite strand and the second. A function of
// its own when it is built too: with the judging beside it, its loop over two readings takes five instructions a letter more.
#[inline(never)]
fn same_key(first: &[u8], second: &[u8], kind: Kind) -> bool
    requires { (0 < length first.now) × (0 < length second.now) }
    ensures { result ≡ same_key (kind_number kind) first.now second.now }
{
    if first.len() != second.len() {
        return false;
    }
    let one = Side::given(first);
    let two = Side::given(second);
    let b = start_of(&two);
    if same_reading(&one, start_of(&one), &two, b) {
        return true;
    }
    if kind.has_opposite() {
        let other = Side::opposite(first);
        return same_reading(&other, start_of(&other), &two, b);
    }
    false
}

// The first ring is judged in full before the second.
pub fn compare(first: &[u8], second: &[u8], kind: u8) -> Result<bool, NotCompared>
    ensures { told_compare result ≡ compared_of kind first.now second.now }
{
    let known = judge(first, kind, false).map_err(NotCompared::First)?;
    judge(second, kind, false).map_err(NotCompared::Second)?;
    Ok(same_key(first, second, known))
}
